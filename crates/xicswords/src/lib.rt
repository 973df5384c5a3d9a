// The words of an XICS (§14.5, §14.6), by the fields of crates/fields.
#![tactic(auto)]

ghost use Rattle.std.specs.Prelude.{◌≡◌};
ghost use Rattle.xicswords.specs.Word.{destination, narrow, paired, trimmed, is_trimmed, fresh_server, fresh_source, delivers};

use fields::{field_get, field_put};

// The server that a source's word names.
pub fn server_of(w: u64) -> u64
    ensures { result ≡ destination w }
{
    field_get(w, 0, 32)
}

// §14.9: whether no bit above 42 is set.
pub fn is_narrow(w: u64) -> bool
    ensures { result ≡ narrow w }
{
    w < 0x800_0000_0000
}

// §14.10: whether source number and pending priority say the same: something is pending, or nothing is.
#[tactic(auto, unfolding(crate::specs::Word::paired))]
pub fn is_paired(v: u64) -> bool
    ensures { result ≡ paired v }
{
    let number = field_get(v, 32, 24);
    let priority = field_get(v, 16, 8);
    (number == 0) == (priority == 255)
}

// §14.10: a server's word as it is kept: the bits that are not used are 0.
pub fn trim(v: u64) -> u64
    ensures { result ≡ trimmed v }
{
    field_put(v, 0, 16, 0)
}

// §14.12: whether they are 0.
pub fn is_trimmed(v: u64) -> bool
    ensures { result ≡ is_trimmed v }
{
    field_get(v, 0, 16) == 0
}

// §14.7: the word of a server that was just registered.
pub fn fresh_server() -> u64
    ensures { result ≡ fresh_server }
{
    let w = field_put(0, 16, 8, 255);
    field_put(w, 24, 8, 255)
}

// §14.8: the word of a source that was just registered with a server.
pub fn fresh_source(server: u64) -> u64
    ensures { result ≡ fresh_source server }
{
    let w = field_put(server, 32, 8, 255);
    field_put(w, 41, 1, 1)
}

// §14.11: whether a source with word w is deliverable to the server with word v.
#[tactic(auto, unfolding(crate::specs::Word::delivers))]
pub fn is_deliverable(w: u64, v: u64) -> bool
    ensures { result ≡ delivers w v }
{
    let pending = field_get(w, 42, 1);
    let masked = field_get(w, 41, 1);
    let priority = field_get(w, 32, 8);
    let current = field_get(v, 56, 8);
    pending == 1 && masked == 0 && priority < current
}
