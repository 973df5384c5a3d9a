// The rows of an XICS, read and written where they lie in the lent bytes (§14.2): no table is ever copied. Each function serves both tables.
// The bytes are a parameter of each: a struct over them, with `Counted` as its invariant, would stand twice, over & and over &mut.
#![tactic(auto)]

ghost use Rattle.std.specs.Prelude.{◌≡◌, true, ◌+◌, ◌*◌, ◌<◌, ◌≤◌, length, get_or};
ghost use Rattle.xicsrows.specs.XicsLayout.{size, count_at, rows_at, table, added, worded, cleared, counts_ok, Counted};
ghost use Rattle.xicsrows.specs.Registered.{no_row, registered, row_with};
ghost use Rattle.xicsrows.specs.Tables.{number_of};

use words::{get64, put64};

// The length of an XICS, and how many rows a table has room for.
#[derive(Clone, Copy)]
pub struct Xics;

impl Xics {
    pub const LEN: usize = 2064;

    pub const ROWS: usize = 64;
}

// The two tables, in their order.
#[derive(Clone, Copy, Debug, PartialEq, Eq)]
pub enum Table {
    Servers = 0,
    Sources = 1,
}

impl Table {
    // Its number.
    pub fn number(self) -> usize
        ensures { result ≡ number_of self }
    {
        self as usize
    }

    // Where the number of its rows stands.
    fn count_at(self) -> usize
        ensures { result ≡ count_at (number_of self) }
    {
        self.number() * 8
    }

    // Where its row i begins, or would if there were one more.
    fn row_at(self, i: usize) -> usize
        requires { i ≤ 64 }
        ensures { result ≡ rows_at (number_of self) + i * 16 }
    {
        16 + self.number() * 1024 + i * 16
    }
}

// A source or a server that is registered.
#[derive(Clone, Copy, Debug, PartialEq, Eq)]
pub struct Row {
    pub number: u64,
    pub word: u64,
}

// Whether the numbers of rows are within the room for them: tested before a row is read.
#[tactic(auto, unfolding(crate::specs::XicsLayout::counts_ok))]
pub fn counts_ok(s: &[u8]) -> bool
    requires { length s.now ≡ size }
    ensures { result ≡ counts_ok s.now }
{
    get64(s, 0) <= 64 && get64(s, 8) <= 64
}

// How many rows a table has.
#[tactic(auto, using(crate::proofs::InPlace::at_count))]
pub fn count(s: &[u8], t: Table) -> usize
    requires { Counted s.now }
    ensures { result ≡ length (table (number_of t) s.now) }
{
    get64(s, t.count_at()) as usize
}

// A row.
#[tactic(auto, using(crate::proofs::InPlace::lying))]
pub fn read_row(s: &[u8], t: Table, i: usize) -> Row
    requires { Counted s.now × (i < length (table (number_of t) s.now)) }
    ensures { result ≡ get_or (table (number_of t) s.now) i no_row }
{
    let at = t.row_at(i);
    Row {
        number: get64(s, at),
        word: get64(s, at + 8),
    }
}

// The index of the row with a number, if there is one.
#[tactic(auto, using(crate::proofs::Search::seeking))]
pub fn find(s: &[u8], t: Table, number: u64) -> Option<usize>
    requires { Counted s.now }
    ensures { result ≡ row_with number (table (number_of t) s.now) }
{
    for i in 0..count(s, t) {
        if read_row(s, t, i).number == number {
            return Some(i);
        }
    }
    None
}

// Whether a number is registered.
#[tactic(auto, unfolding(crate::specs::Registered::registered))]
pub fn is_registered(s: &[u8], t: Table, number: u64) -> bool
    requires { Counted s.now }
    ensures { result ≡ registered number (table (number_of t) s.now) }
{
    find(s, t, number).is_some()
}

// One row more, behind the last.
#[tactic(auto, using(crate::proofs::InPlace::low), unfolding(crate::specs::XicsLayout::added, crate::specs::XicsLayout::put_word))]
pub fn add(s: &mut [u8], t: Table, number: u64, word: u64)
    requires { Counted s.old × (length (table (number_of t) s.old) < 64) }
    ensures { s.new ≡ added (number_of t) number word s.old }
{
    let n = count(s, t);
    let at = t.row_at(n);
    put64(s, at, number);
    put64(s, at + 8, word);
    put64(s, t.count_at(), (n + 1) as u64);
}

// Another word in a row.
#[tactic(auto, using(crate::proofs::InPlace::lying), unfolding(crate::specs::XicsLayout::worded, crate::specs::XicsLayout::put_word))]
pub fn put_word(s: &mut [u8], t: Table, i: usize, word: u64)
    requires { Counted s.old × (i < length (table (number_of t) s.old)) }
    ensures { s.new ≡ worded (number_of t) i word s.old }
{
    put64(s, t.row_at(i) + 8, word);
}

// No row in either table.
#[tactic(auto, unfolding(crate::specs::XicsLayout::cleared, crate::specs::XicsLayout::put_word))]
pub fn clear(s: &mut [u8])
    requires { length s.old ≡ size }
    ensures { s.new ≡ cleared s.old }
{
    put64(s, 0, 0);
    put64(s, 8, 0);
}
