// A fault of a restore as text: its table, the entry's index and its name, of the fault itself or of its code.
#![tactic(auto)]

ghost use Rattle.std.specs.Prelude.{◌≡◌, ◌+◌, ◌≤◌, length, ◌++◌};
ghost use Rattle.codes.specs.Codes.{kind_is, place_is, fault_is};
ghost use Rattle.lines.specs.Text.{ascii, Adds};
ghost use Rattle.naming.specs.Naming.{kind_text, place_text, fault_text, kind_of, place_in, fault_of, fault_room, Puts};

use arrayvec::ArrayVec;
use codes::{Fault, Kind, Place};

// The name of a kind by §13.4. The longest has 27 bytes.
#[tactic(auto, unfolding(crate::specs::Naming::kind_text))]
fn name(kind: Kind) -> &'static [u8]
    ensures { (result.now ≡ kind_text (kind_is kind)) × (length result.now ≤ 27) }
{
    match kind {
        Kind::Pe => b"pe",
        Kind::Repeat => b"repeat",
        Kind::Collection17th => b"17th",
        Kind::Next => b"next",
        Kind::Size => b"size",
        Kind::Device33rd => b"33rd",
        Kind::Outside => b"ITT outside memory",
        Kind::Overlap => b"overlap",
        Kind::Lpi => b"LPI",
        Kind::Icid => b"ICID not in the collections",
        Kind::Event1025th => b"1,025th",
    }
}

// A place, and the colon behind it. A number takes at most 20 digits, and a byte ends it.
fn put_place<const N: usize>(out: &mut ArrayVec<u8, N>, place: Place)
    requires { length out.old.items + 63 ≤ N }
    ensures { Adds out.old.items (place_text (place_is place) ++ ascii ":") 63 out.new.items }
{
    match place {
        Place::Collection(i) => lines::put_number(out, b"collection table, entry ", i as u64, b':'),
        Place::Device(i) => lines::put_number(out, b"device table, entry ", i as u64, b':'),
        Place::Event(id, i) => {
            lines::put_number(out, b"ITT of device ", id as u64, b',');
            lines::put_number(out, b" entry ", i as u64, b':');
        }
    }
}

// The whole of a fault, as it stands behind the answer of a restore.
pub fn put_met<const N: usize>(out: &mut ArrayVec<u8, N>, fault: Fault)
    requires { length out.old.items + fault_room ≤ N }
    ensures { Adds out.old.items (fault_text (fault_is fault)) fault_room out.new.items }
{
    put_place(out, fault.place);
    lines::put_text(out, b" ");
    lines::put_text(out, name(fault.kind));
}

// The kind with a number of §13.4.
fn kind_of(n: u64) -> Kind
    ensures { kind_is result ≡ kind_of n }
{
    match Kind::try_from(n) {
        Ok(kind) => kind,
        Err(_) => Kind::Event1025th,
    }
}

// A place by the parts of its code.
#[tactic(auto, unfolding(crate::specs::Naming::place_in))]
fn place_in(table: u64, device: u16, entry: u16) -> Place
    ensures { place_is result ≡ place_in table device entry }
{
    match table {
        1 => Place::Collection(entry),
        2 => Place::Device(entry),
        _ => Place::Event(device, entry),
    }
}

// The fault of a code, whose parts stand as §13.6 has them.
fn fault_of(code: u64) -> Fault
    ensures { fault_is result ≡ fault_of code }
{
    let table = fields::field_get(code, 32, 8);
    let device = fields::field_get(code, 16, 16);
    let entry = fields::field_get(code, 0, 16);
    Fault {
        kind: kind_of(fields::field_get(code, 40, 8)),
        place: place_in(table, device as u16, entry as u16),
    }
}

// The fault of a code, put into a buffer from an index on, and the index after it handed back. Any number is a code: what no fault has is read
// as kind_of and place_in of specs/Naming.antt say.
pub fn put_fault(out: &mut [u8], at: usize, code: u64) -> usize
    requires { at + fault_room ≤ length out.old }
    ensures { Puts out.old at (fault_text (fault_of code)) fault_room out.new result }
{
    let mut text = ArrayVec::<u8, 91>::new();
    put_met(&mut text, fault_of(code));
    let end = at + text.len();
    out[at..end].copy_from_slice(text.as_slice());
    end
}
