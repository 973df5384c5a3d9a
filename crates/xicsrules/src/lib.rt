// Whether the bytes of an XICS are sound (§14.12): the test that they pass before any call goes on. Rows are read where they lie.
#![tactic(auto)]

ghost use Rattle.std.specs.Prelude.{◌≡◌, ◌&&◌, length};
ghost use Rattle.lists.specs.Rows.{all};
ghost use Rattle.xicsrows.specs.XicsLayout.{size, server, table, Counted};
ghost use Rattle.xicsrows.specs.Registered.{distinct};
ghost use Rattle.xicsrows.specs.Tables.{number_of};
ghost use Rattle.xicsrules.specs.Sound.{takes, server_ok, source_ok, sound_xics};
ghost use Rattle.xicsrules.specs.Inner.{row_ok};

use xicsrows::{Row, Table, count, counts_ok, find, is_registered, read_row};

// §14.9: whether a source may have the word.
#[tactic(auto, unfolding(crate::specs::Sound::takes))]
pub fn takes_word(s: &[u8], w: u64) -> bool
    requires { Counted s.now }
    ensures { result ≡ takes (table server s.now) w }
{
    xicswords::is_narrow(w) && is_registered(s, Table::Servers, xicswords::server_of(w))
}

#[tactic(auto, unfolding(crate::specs::Sound::server_ok))]
fn server_ok(r: Row) -> bool
    ensures { result ≡ server_ok r }
{
    r.number < 0x1_0000_0000 && xicswords::is_paired(r.word) && xicswords::is_trimmed(r.word)
}

#[tactic(auto, unfolding(crate::specs::Sound::source_ok))]
fn source_ok(s: &[u8], r: Row) -> bool
    requires { Counted s.now }
    ensures { result ≡ source_ok (table server s.now) r }
{
    r.number < 0x10_0000 && takes_word(s, r.word)
}

// A row of either table: which test it is, the definition `row_ok` says by the table.
fn row_ok(s: &[u8], t: Table, r: Row) -> bool
    requires { Counted s.now }
    ensures { result ≡ row_ok (number_of t) (table server s.now) r }
{
    match t {
        Table::Servers => server_ok(r),
        Table::Sources => source_ok(s, r),
    }
}

// Every row of a table. A number that stands twice is found at another index than that of the second.
#[tactic(auto, using(crate::proofs::Tests::testing))]
fn rows_ok(s: &[u8], t: Table) -> bool
    requires { Counted s.now }
    ensures { result ≡ (all (row_ok (number_of t) (table server s.now)) (table (number_of t) s.now)
        && distinct (table (number_of t) s.now)) }
{
    for i in 0..count(s, t) {
        let r = read_row(s, t, i);
        if !row_ok(s, t, r) || find(s, t, r.number) != Some(i) {
            return false;
        }
    }
    true
}

// §14.12: the whole test, of bytes of the right length: the numbers of rows before a row is read, then the rows.
#[tactic(auto, unfolding(crate::specs::Sound::sound_xics))]
pub fn is_sound(s: &[u8]) -> bool
    requires { length s.now ≡ size }
    ensures { result ≡ sound_xics s.now }
{
    counts_ok(s) && rows_ok(s, Table::Servers) && rows_ok(s, Table::Sources)
}
