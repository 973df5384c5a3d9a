// The calls on the lent bytes of an XICS (part 14 of docs/DEFINITION.md): the test of the bytes, the refusals in their order, and one row
// written where it lies.
#![tactic(auto)]

ghost use Rattle.std.specs.Prelude.{◌≡◌, Some, IfOk};
ghost use Rattle.guest.specs.Returned.{fault, reading};
ghost use Rattle.calls.specs.Call.{Gives};
ghost use Rattle.xicsrows.specs.XicsLayout.{table, Counted};
ghost use Rattle.xicsrows.specs.Registered.{row_with, word_of};
ghost use Rattle.xicsrows.specs.Tables.{number_of};
ghost use Rattle.xics.specs.declared.XicsChange.TheVariants.{AddServer, AddSource, SetSource, SetServer};
ghost use Rattle.xics.specs.Faults.{width_fault, number_fault};
ghost use Rattle.xics.specs.Calls.{guarded_xics, change_fault, changed, changes_xics, set_up_xics, asks_word, asks_delivery, Settles, Performs};

use answers::Errno;
use xicsrows::{Table, Xics, count, find, is_registered, read_row};

// Calls that may change an XICS; a set has the width of the lent value and its number.
#[derive(Clone, Copy)]
pub enum XicsChange {
    AddServer(u64),
    AddSource(u64, u64),
    SetSource(u64, u64, u64),
    SetServer(u64, u64, u64),
}

// §14.3: how every call but set-up begins.
fn check_bytes(s: &[u8]) -> Result<(), Errno>
    ensures { fault result ≡ guarded_xics (λ e. e) 0 s.now }
{
    if s.len() != Xics::LEN {
        return Err(Errno::EFAULT);
    }
    if !xicsrules::is_sound(s) {
        return Err(Errno::EINVAL);
    }
    Ok(())
}

// The width of a lent value: that of a word.
fn check_width(width: u64) -> Result<(), Errno>
    ensures { fault result ≡ width_fault width }
{
    if width != 8 {
        return Err(Errno::EFAULT);
    }
    Ok(())
}

// The index of the row of a source or a server that is registered.
fn seek(s: &[u8], t: Table, number: u64) -> Result<usize, Errno>
    requires { Counted s.now }
    ensures fault { fault result ≡ number_fault number (table (number_of t) s.now) }
    ensures row { IfOk result (λ i. Some i ≡ row_with number (table (number_of t) s.now)) }
{
    find(s, t, number).ok_or(Errno::ENOENT)
}

// Its word.
#[tactic(auto, using(crate::proofs::Laws::found_in, crate::proofs::Laws::found_word))]
fn word_of(s: &[u8], t: Table, number: u64) -> Result<u64, Errno>
    requires { Counted s.now }
    ensures fault { fault result ≡ number_fault number (table (number_of t) s.now) }
    ensures word { IfOk result (λ w. w ≡ word_of number (table (number_of t) s.now)) }
{
    let i = seek(s, t, number)?;
    Ok(read_row(s, t, i).word)
}

// §14.7: registers a server.
#[tactic(auto, using(crate::proofs::Laws::registering), unfolding(crate::specs::Faults::server_fault))]
fn add_server(s: &mut [u8], number: u64) -> Result<(), Errno>
    requires { Counted s.old }
    ensures { Performs (AddServer number) s.old result s.new }
{
    if 0x1_0000_0000 <= number {
        return Err(Errno::EINVAL);
    }
    if is_registered(s, Table::Servers, number) {
        return Err(Errno::EEXIST);
    }
    if Xics::ROWS <= count(s, Table::Servers) {
        return Err(Errno::ENOMEM);
    }
    xicsrows::add(s, Table::Servers, number, xicswords::fresh_server());
    Ok(())
}

// §14.8: registers a source with a server.
#[tactic(auto, using(crate::proofs::Laws::registering), unfolding(crate::specs::Faults::source_fault))]
fn add_source(s: &mut [u8], number: u64, to: u64) -> Result<(), Errno>
    requires { Counted s.old }
    ensures { Performs (AddSource number to) s.old result s.new }
{
    if 0x10_0000 <= number || 0x1_0000_0000 <= to {
        return Err(Errno::EINVAL);
    }
    if is_registered(s, Table::Sources, number) {
        return Err(Errno::EEXIST);
    }
    if !is_registered(s, Table::Servers, to) {
        return Err(Errno::ENOENT); // the server
    }
    if Xics::ROWS <= count(s, Table::Sources) {
        return Err(Errno::ENOMEM); // the 65th
    }
    xicsrows::add(s, Table::Sources, number, xicswords::fresh_source(to));
    Ok(())
}

// §14.9: sets a source's word.
#[tactic(auto, using(crate::proofs::Laws::setting), unfolding(crate::specs::Faults::source_word_fault))]
fn set_source(s: &mut [u8], number: u64, width: u64, word: u64) -> Result<(), Errno>
    requires { Counted s.old }
    ensures { Performs (SetSource number width word) s.old result s.new }
{
    check_width(width)?;
    let i = seek(s, Table::Sources, number)?;
    if !xicsrules::takes_word(s, word) {
        return Err(Errno::EINVAL);
    }
    xicsrows::put_word(s, Table::Sources, i, word);
    Ok(())
}

// §14.10: sets a server's word. One function for both sets would take the test of the word, and what is kept of it, as parameters.
#[tactic(auto, using(crate::proofs::Laws::setting), unfolding(crate::specs::Faults::server_word_fault))]
fn set_server(s: &mut [u8], number: u64, width: u64, word: u64) -> Result<(), Errno>
    requires { Counted s.old }
    ensures { Performs (SetServer number width word) s.old result s.new }
{
    check_width(width)?;
    let i = seek(s, Table::Servers, number)?;
    if !xicswords::is_paired(word) {
        return Err(Errno::EINVAL);
    }
    xicsrows::put_word(s, Table::Servers, i, xicswords::trim(word));
    Ok(())
}

// §14.3: the test of the bytes, and then the change itself.
#[tactic(auto, using(crate::proofs::Laws::begun))]
fn change(s: &mut [u8], c: XicsChange) -> Result<(), Errno>
    ensures { Settles (guarded_xics (λ e. e) (change_fault c s.old) s.old) (changed c s.old) s.old result s.new }
{
    check_bytes(s)?;
    match c {
        XicsChange::AddServer(number) => add_server(s, number),
        XicsChange::AddSource(number, to) => add_source(s, number, to),
        XicsChange::SetSource(number, width, word) => set_source(s, number, width, word),
        XicsChange::SetServer(number, width, word) => set_server(s, number, width, word),
    }
}

// The answer of the C interface: 0, or the errno with its sign turned.
pub fn apply(s: &mut [u8], c: XicsChange) -> i64
    ensures { Gives (changes_xics c s.old) result s.new }
{
    match change(s, c) {
        Ok(()) => 0,
        Err(e) => e.refusal(),
    }
}

// §14.4: an XICS without a source or a server, of any bytes of the right length; the answer is that of the C interface.
#[tactic(auto, using(crate::proofs::Laws::setup_short, crate::proofs::Laws::setup_clears))]
pub fn set_up(s: &mut [u8]) -> i64
    ensures { Gives (set_up_xics s.old) result s.new }
{
    if s.len() != Xics::LEN {
        return Errno::EFAULT.refusal();
    }
    xicsrows::clear(s);
    0
}

// §14.11: the word of a source or of a server.
#[tactic(auto, using(crate::proofs::Laws::getting))]
pub fn ask_word(s: &[u8], t: Table, number: u64, width: u64) -> Result<u64, Errno>
    ensures { reading result ≡ asks_word (number_of t) number width s.now }
{
    check_bytes(s)?;
    check_width(width)?;
    word_of(s, t, number)
}

// §14.11: 1 where a source is deliverable, else 0. Since the bytes are sound, its destination is registered.
#[tactic(auto, using(crate::proofs::Laws::asking))]
pub fn ask_delivery(s: &[u8], number: u64) -> Result<u64, Errno>
    ensures { reading result ≡ asks_delivery number s.now }
{
    check_bytes(s)?;
    let w = word_of(s, Table::Sources, number)?;
    let v = word_of(s, Table::Servers, xicswords::server_of(w))?;
    Ok(u64::from(xicswords::is_deliverable(w, v)))
}
