// The chained entries of a table in lent memory: the device table, and the interrupt translation table (ITT) of a device.
ghost use Rattle.std.specs.Prelude.{◌≡◌, ◌/◌, ◌≤◌, ◌<◌, length, Bool, true, false, ℕ, List};
ghost use Rattle.guest.specs.Machine.{Machine};
ghost use Rattle.mapping.specs.Mapped.{Mapped};
ghost use Rattle.layout.specs.Layout.{decode};
ghost use Rattle.chains.specs.Slots.{exact, first_from, following};
ghost use Rattle.tables.specs.Bytes.{entry_at};
ghost use Rattle.tables.specs.Restored.{Out, walk};
ghost use Rattle.restore.specs.Begun.{Begun, ByFault, Steps};
ghost use Rattle.restore.specs.Both.{valid_of, next_of, cap_of, slots_of};

use chains::Next;
use codes::Fault;

// The bytes of an entry.
pub const ENTRY: usize = 8;

// What each kind of chained table has of its own. `device` says which of the two it is.
pub trait Chained {
    ghost device: { Bool };

    // What a restore makes of an entry, and what it asks of the machine.
    ghost visits: { Self → Machine → List ℕ → Bool → ℕ → Mapped → Out };

    ghost ready: { Self → Machine → Type 0 };

    // Whether an entry is there, by its word.
    fn valid(w: u64) -> bool
        ensures { result ≡ valid_of device w };

    // The distance that an entry names.
    fn next(w: u64) -> u64
        ensures { result ≡ next_of device w };

    // Whether a next is the distance itself.
    fn is_exact(next: u64) -> bool
        ensures { result ≡ exact (cap_of device) next };

    // Reads what an entry that is there stands for. `good` says whether the entry's next is no fault.
    fn visit(&self, s: &mut [u8], t: &[u8], good: bool, i: usize) -> Result<(), Fault>
        requires { (Begun s.old) × (ready self.now (decode s.old)) × (i < length t.now / 8) × (i < 65536) }
        ensures { Steps ByFault (λ m. visits self.now m t.now good i) s.old result s.new };
}

// The word of an entry.
pub fn entry_at(t: &[u8], i: usize) -> u64
    requires { i < length t.now / 8 }
    ensures { result ≡ entry_at t.now i }
{
    words::get64(t, i * ENTRY)
}

// The first entry that is there, from `from` on, or the number of entries. A function of its own in the machine's code too: where it is put
// into a caller, what the caller answers without an entry is set anew at every blank.
#[inline(never)]
fn first_from<T: Chained>(t: &[u8], from: usize) -> usize
    requires { from ≤ length t.now / 8 }
    ensures { result ≡ first_from (slots_of T.device t.now) from }
{
    let n = t.len() / ENTRY;
    for i in from..n {
        if T::valid(entry_at(t, i)) {
            return i;
        }
    }
    n
}

// Where the entry at `i` leads.
fn follow<T: Chained>(t: &[u8], i: usize) -> Next
    requires { i < length t.now / 8 }
    ensures { result ≡ following (slots_of T.device t.now) i }
{
    let n = t.len() / ENTRY;
    let next = T::next(entry_at(t, i));
    if next == 0 {
        return Next::Last;
    }
    let d = next as usize;
    if n - i <= d {
        return Next::Bad;
    }
    let j = i + d;
    if T::is_exact(next) {
        // §9.6: a blank there is a fault.
        if T::valid(entry_at(t, j)) {
            return Next::At(j);
        }
        return Next::Bad;
    }
    // At a device table's cap the following entry may lie further on.
    let k = first_from::<T>(t, j);
    if k < n {
        return Next::At(k);
    }
    Next::Bad
}

// Visits the entries of a table in rising order.
pub fn walk<T: Chained>(table: &T, s: &mut [u8], t: &[u8]) -> Result<(), Fault>
    requires { (Begun s.old) × (T.ready table.now (decode s.old)) × (length t.now / 8 ≤ 65536) }
    ensures { Steps ByFault (λ m. walk (slots_of T.device t.now) (T.visits table.now m t.now)) s.old result s.new }
{
    let n = t.len() / ENTRY;
    let mut at = first_from::<T>(t, 0);
    if n <= at {
        return Ok(());
    }
    loop {
        match follow::<T>(t, at) {
            Next::Bad => {
                return table.visit(s, t, false, at);
            }
            Next::Last => {
                return table.visit(s, t, true, at);
            }
            Next::At(j) => {
                table.visit(s, t, true, at)?;
                at = j;
            }
        }
    }
}
