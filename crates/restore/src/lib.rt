// A restore: the ITS tables in lent guest memory are read back into the mapping of a state's bytes, row by row. Collections come
// first, then each device with its events. Faults are met in the order of §9.3 to §9.7; the first is handed back. The bytes
// are a copy that the caller drops where there is a fault.
#![tactic(auto)]

mod places; // where tables lie in memory
mod rows; // the collections read so far
mod slots; // the chained entries of a table

ghost use Rattle.std.specs.Prelude.{◌≡◌, ◌/◌, ◌≤◌, ◌<◌, length, true, false, ⊤};
ghost use Rattle.layout.specs.Layout.{decode};
ghost use Rattle.maplayout.specs.MapLayout.{decode_map};
ghost use Rattle.tables.specs.Bytes.{device_slots};
ghost use Rattle.tables.specs.Fault.{at_collection, at_event};
ghost use Rattle.tables.specs.Restored.{walk, visit_collection, read_collections, visit_event, read_events, visit_device, restored};
ghost use Rattle.restore.specs.Restores.{Restorable, Reads, Restores};
ghost use Rattle.restore.specs.Begun.{Begun, ByFault, ByKind, Steps};
ghost use Rattle.chains.specs.Slots.{exact};
ghost use Rattle.restore.specs.Both.{valid_of, next_of, cap_of};
ghost use Rattle.restore.specs.Parts.{read_fault, kind_met};

use answers::Errno;
use codes::{Fault, Kind, Place};
use guest::Guest;
use mapping::{Collection, Device, Event};
use slots::Chained;

// LPIs are 8,192 to 65,535.
const FIRST_LPI: u64 = 8192;

const LAST_LPI: u64 = 65535;

// The cap of §7.2, of device tables alone.
const DEVICE_CAP: u64 = 16383;

// The most bits of an event ID.
const MAX_BITS: u64 = 16;

// The collection of an entry that is there, put in at its place among those read before it; or the kind of its fault.
#[tactic(auto, using(crate::proofs::Over::begun_counted, crate::proofs::Over::begun_guest))]
fn take_collection(s: &mut [u8], t: &[u8], i: usize) -> Result<(), Kind>
    requires { (Begun s.old) × (i < length t.now / 8) }
    ensures { Steps (ByKind (at_collection i)) (λ m. visit_collection m t.now i) s.old result s.new }
{
    let e = entries::collection_entry(slots::entry_at(t, i));
    if layout::vcpu_count(s) as u64 <= e.pe {
        return Err(Kind::Pe);
    }
    let n = maplayout::collection_count(s);
    if rows::find_collection(s, e.icid) < n {
        return Err(Kind::Repeat);
    }
    if Guest::MAX_COLLECTIONS <= n {
        return Err(Kind::Collection17th);
    }
    let row = Collection {
        icid: e.icid,
        pe: e.pe,
    };
    let place = rows::place_collection(s, e.icid);
    maplayout::insert_collection(s, place, row);
    Ok(())
}

// The same, with the place in the answer.
fn visit_collection(s: &mut [u8], t: &[u8], i: usize) -> Result<(), Fault>
    requires { (Begun s.old) × (i < length t.now / 8) × (i < 65536) }
    ensures { Steps ByFault (λ m. visit_collection m t.now i) s.old result s.new }
{
    let place = Place::Collection(i as u16);
    take_collection(s, t, i).map_err(|kind| Fault { kind, place })
}

// The collections of a table: its entries up to the first that is blank.
fn read_collections(s: &mut [u8], t: &[u8]) -> Result<(), Fault>
    requires { (Begun s.old) × (length t.now / 8 ≤ 65536) }
    ensures { Steps ByFault (λ m. read_collections m t.now (length t.now / 8) 0) s.old result s.new }
{
    for i in 0..t.len() / slots::ENTRY {
        if !entries::collection_valid(slots::entry_at(t, i)) {
            return Ok(());
        }
        visit_collection(s, t, i)?;
    }
    Ok(())
}

// The event of an entry that is there, put behind those read before it; or the kind of its fault. `good` says whether the entry's next is
// no fault.
#[tactic(auto, using(crate::proofs::Over::begun_counted))]
fn take_event(s: &mut [u8], t: &[u8], id: u16, good: bool, i: usize) -> Result<(), Kind>
    requires { (Begun s.old) × (i < length t.now / 8) × (i < 65536) }
    ensures { Steps (ByKind (at_event id i)) (λ m. visit_event t.now id good i) s.old result s.new }
{
    let e = entries::event_entry(slots::entry_at(t, i));
    let lpi = e.lpi;
    if lpi < FIRST_LPI {
        return Err(Kind::Lpi); // below
    }
    if LAST_LPI < lpi {
        return Err(Kind::Lpi); // above
    }
    if !good {
        return Err(Kind::Next); // behind the LPI
    }
    if maplayout::collection_count(s) <= rows::find_collection(s, e.icid) {
        return Err(Kind::Icid);
    }
    if Guest::MAX_EVENTS <= maplayout::event_count(s) {
        return Err(Kind::Event1025th);
    }
    let row = Event {
        device: id,
        event: i as u16,
        lpi: lpi as u16,
        icid: e.icid as u16,
    };
    maplayout::add_event(s, row);
    Ok(())
}

// The same, with the place in the answer.
fn visit_event(s: &mut [u8], t: &[u8], id: u16, good: bool, i: usize) -> Result<(), Fault>
    requires { (Begun s.old) × (i < length t.now / 8) × (i < 65536) }
    ensures { Steps ByFault (λ m. visit_event t.now id good i) s.old result s.new }
{
    let place = Place::Event(id, i as u16);
    take_event(s, t, id, good, i).map_err(|kind| Fault { kind, place })
}

// The ITT of a device.
#[derive(Clone, Copy)]
struct Itt {
    id: u16,
}

impl Chained for Itt {
    ghost device = { false };

    ghost visits = { λ T m t good i. visit_event t T.id good i };

    ghost ready = { λ _ _. ⊤ };

    #[tactic(auto, unfolding(crate::specs::Both::valid_of))]
    fn valid(w: u64) -> bool {
        entries::event_valid(w)
    }

    #[tactic(auto, unfolding(crate::specs::Both::next_of))]
    fn next(w: u64) -> u64 {
        entries::event_entry(w).next
    }

    // Every next of an event is.
    #[tactic(auto, unfolding(crate::specs::Both::cap_of))]
    fn is_exact(_next: u64) -> bool {
        true
    }

    fn visit(&self, s: &mut [u8], t: &[u8], good: bool, i: usize) -> Result<(), Fault> {
        visit_event(s, t, self.id, good, i)
    }
}

// The events of an ITT, in rising order.
fn read_events(s: &mut [u8], t: &[u8], id: u16) -> Result<(), Fault>
    requires { (Begun s.old) × (length t.now / 8 ≤ 65536) }
    ensures { Steps ByFault (λ m. read_events t.now id) s.old result s.new }
{
    slots::walk(&Itt { id }, s, t)
}

// The kind of a device's fault, but for those of its events. `leads` says whether the entry's next is no fault.
#[tactic(auto, using(crate::proofs::Over::begun_counted, crate::proofs::Over::begun_long))]
fn device_fault(s: &[u8], d: Device, leads: bool) -> Result<(), Kind>
    requires { Begun s.now }
    ensures { kind_met result ≡ read_fault leads (decode s.now) d (decode_map s.now) }
{
    let n = maplayout::device_count(s);
    let bits = d.bits;
    if !leads {
        return Err(Kind::Next); // before all others
    }
    if MAX_BITS < bits {
        return Err(Kind::Size);
    }
    if Guest::MAX_DEVICES <= n {
        return Err(Kind::Device33rd);
    }
    let a = places::itt_area(d);
    if !areas::inside(places::memory_area(layout::load_memory(s)), a) {
        return Err(Kind::Outside);
    }
    if places::strikes_tables(s, a) {
        return Err(Kind::Overlap);
    }
    Ok(())
}

// The device of an entry that is there, put behind those read before it, and then its events. `good` says whether the entry's next is no
// fault.
#[tactic(auto, using(crate::proofs::Over::begun_long))]
fn visit_device(s: &mut [u8], mem: &[u8], t: &[u8], good: bool, i: usize) -> Result<(), Fault>
    requires { (Begun s.old) × (length mem.now ≡ (decode s.old).memory.length) × (i < length t.now / 8) × (i < 65536) }
    ensures { Steps ByFault (λ m. visit_device m mem.now t.now good i) s.old result s.new }
{
    let e = entries::device_entry(slots::entry_at(t, i));
    let d = Device {
        id: i as u64,
        itt: e.itt,
        bits: e.bits,
    };
    let place = Place::Device(i as u16);
    device_fault(s, d, good).map_err(|kind| Fault { kind, place })?;
    let itt = places::area_bytes(layout::load_memory(s), places::itt_area(d), mem);
    maplayout::add_device(s, d);
    read_events(s, itt, i as u16)
}

// The device table, and the memory in which it lies.
#[derive(Clone, Copy)]
struct DeviceTable<'a> {
    mem: &'a [u8],
}

// The clauses of Chained stand here again where a method has no self: the check does not give it them at a type with a lifetime.
impl<'a> Chained for DeviceTable<'a> {
    ghost device = { true };

    ghost visits = { λ T m t good i. visit_device m T.mem.now t good i };

    ghost ready = { λ T m. length T.mem.now ≡ m.memory.length };

    #[tactic(auto, unfolding(crate::specs::Both::valid_of))]
    fn valid(w: u64) -> bool
        ensures { result ≡ valid_of true w }
    {
        entries::device_valid(w)
    }

    #[tactic(auto, unfolding(crate::specs::Both::next_of))]
    fn next(w: u64) -> u64
        ensures { result ≡ next_of true w }
    {
        entries::device_entry(w).next
    }

    // A next at the cap may stand for a larger distance.
    #[tactic(auto, unfolding(crate::specs::Both::cap_of))]
    fn is_exact(next: u64) -> bool
        ensures { result ≡ exact (cap_of true) next }
    {
        next < DEVICE_CAP
    }

    fn visit(&self, s: &mut [u8], t: &[u8], good: bool, i: usize) -> Result<(), Fault> {
        visit_device(s, self.mem, t, good, i)
    }
}

// The devices of a table with their events, in rising order.
fn read_devices(s: &mut [u8], mem: &[u8], t: &[u8]) -> Result<(), Fault>
    requires { (Begun s.old) × (length mem.now ≡ (decode s.old).memory.length) × (length t.now / 8 ≤ 65536) }
    ensures { Steps ByFault (λ m. walk (device_slots t.now) (visit_device m mem.now t.now)) s.old result s.new }
{
    slots::walk(&DeviceTable { mem }, s, t)
}

// The mapping that the tables in memory describe, in place of the one in the bytes, or the first fault that is met. Memory is
// read and never written.
pub fn read_tables(s: &mut [u8], mem: &[u8]) -> Result<(), Fault>
    requires { Restorable s.old (length mem.now) }
    ensures { Reads s.old (restored (decode s.old) mem.now) result s.new }
{
    let memory = layout::load_memory(s);
    let tables = layout::load_tables(s);
    maplayout::store_empty(s);
    let collections = places::area_bytes(memory, places::table_area(tables.collections), mem);
    read_collections(s, collections)?;
    let devices = places::area_bytes(memory, places::table_area(tables.devices), mem);
    read_devices(s, mem, devices)
}

// The same, with the errno that a restore answers in the place of the fault.
pub fn restore_tables(s: &mut [u8], mem: &[u8]) -> Result<(), Errno>
    requires { Restorable s.old (length mem.now) }
    ensures { Restores s.old (restored (decode s.old) mem.now) result s.new }
{
    read_tables(s, mem).map_err(|fault| fault.errno())
}
