// The ITS mapping commands, §5.4 to §5.13: devices, collections, events, and where the two tables may lie. Each is tried once the ITS
// is initialised and, but for placing, its tables are placed (§5.3). A search of mapping gives an index or the number of rows: its
// contracts (index_of_device and the like) say so.
#![tactic(auto)]

ghost use Rattle.std.specs.Prelude.{◌≡◌, true, ◌++◌, map, ◌+◌, ◌^◌, ◌≤◌, ◌<◌, get_or, IfOk};
ghost use Rattle.lists.specs.Rows.{all};
ghost use Rattle.areas.specs.Area.{areas};
ghost use Rattle.guest.specs.Machine.{view};
ghost use Rattle.guest.specs.Returned.{fault, reading};
ghost use Rattle.rules.specs.Rules.{table_area, memory_area};
ghost use Rattle.mapping.specs.Mapped.{rows, Within, Maps, itt_area, no_collection};
ghost use Rattle.mapping.specs.Commands.{table_areas, device_fault, map_device, unmap_device};
ghost use Rattle.mapping.specs.Commands.{map_collection, unmap_collection, has_collection, index_of_collection};
ghost use Rattle.mapping.specs.Commands.{event_fault, map_event, discard, move, lookup, is_empty, well_formed, place_fault};
ghost use Rattle.mapping.specs.MapRules.{MapKept, Sized, small_device};
ghost use Rattle.its.specs.Forms.{is_formed, is_lpi};

use answers::Errno;
use areas::{Area, Areas};
use guest::{Guest, Memory, Table};
use mapping::{Collection, Device, Event, Mapping};

// Entries of 8 bytes in a page of a table.
const PAGE_ENTRIES: u64 = 512;

const PAGE: u64 = 4096;

const MAX_PAGES: u64 = 128;

// ITTs start at multiples of this.
const ITT_UNIT: u64 = 256;

const MAX_BITS: u64 = 16;

// ICIDs are below this.
const ICIDS: u64 = 65536;

const FIRST_LPI: u64 = 8192;

const LAST_LPI: u64 = 65535;

// No From, here and below: Area and what it is made of are types of other crates.
fn memory_area(m: Memory) -> Area
    ensures { result ≡ memory_area m }
{
    Area {
        start: m.start,
        size: m.length,
    }
}

pub fn table_area(t: Table) -> Area
    requires { t.pages ≤ 128 }
    ensures { result ≡ table_area t }
{
    Area {
        start: t.start,
        size: PAGE * t.pages,
    }
}

// How many event IDs there are of so many bits.
pub fn event_ids(bits: u64) -> u64
    requires { bits ≤ 16 }
    ensures { (result ≡ 2 ^ bits) × (result ≤ 65536) }
{
    1 << bits
}

// 8 bytes for each event ID.
pub fn itt_area(d: Device) -> Area
    requires { d.bits ≤ 16 }
    ensures { result ≡ itt_area d }
{
    Area {
        start: d.itt,
        size: 8 * event_ids(d.bits),
    }
}

// A table with the devices' ITTs at its end.
#[tactic(auto, using(crate::proofs::Numbers::small_bits))]
pub fn with_itts(t: Areas, k: &Mapping) -> Areas
    requires { (t.count ≤ 4) × Within k.now × (all small_device (rows k.now).devices ≡ true) }
    ensures { (areas result ≡ areas t ++ map itt_area (rows k.now).devices) × (result.count ≡ t.count + k.now.ndevices) }
{
    let mut next = t;
    for d in &k.devices[..k.ndevices] {
        next = areas::with_area(next, itt_area(*d));
    }
    next
}

// The tables in memory: device table, collection table, ITTs by device ID.
#[tactic(auto, using(crate::proofs::Numbers::kept_tables), unfolding(mapping::specs::Commands::table_areas))]
fn table_areas(g: &Guest, k: &Mapping) -> Areas
    requires { MapKept g.now k.now }
    ensures { (areas result ≡ table_areas (view g.now) (rows k.now).devices) × (result.count ≤ 34) }
{
    let first = areas::with_area(areas::none(), table_area(g.tables.devices));
    let second = areas::with_area(first, table_area(g.tables.collections));
    with_itts(second, k)
}

// Whether an ID is below a table's entries, its bits are 1 to 16 and its ITT starts at a multiple of 256.
pub fn is_formed(d: Device, entries: u64) -> bool
    ensures { result ≡ is_formed entries d }
{
    d.id < entries && (1..=MAX_BITS).contains(&d.bits) && d.itt % ITT_UNIT == 0
}

// The fault of mapping a device.
#[tactic(auto, using(crate::proofs::Steps::searches, crate::proofs::Faults::formed_bits, crate::proofs::Numbers::kept_tables), unfolding(mapping::specs::Commands::device_fault))]
fn device_fault(g: Guest, k: Mapping, d: Device) -> Result<(), Errno>
    requires { MapKept g k }
    ensures decided { fault result ≡ device_fault d (view g) (rows k) }
    ensures room { IfOk result (λ _. k.ndevices < 32) }
{
    if !is_formed(d, PAGE_ENTRIES * g.tables.devices.pages) {
        return Err(Errno::EINVAL);
    }
    if mapping::find_device(&k, d.id) < k.ndevices {
        return Err(Errno::EEXIST);
    }
    if Guest::MAX_DEVICES <= k.ndevices {
        return Err(Errno::ENOMEM);
    }
    let a = itt_area(d);
    if !areas::inside(memory_area(g.memory), a) {
        return Err(Errno::EFAULT);
    }
    if areas::strikes(table_areas(&g, &k), a) {
        return Err(Errno::EINVAL);
    }
    Ok(())
}

#[tactic(auto, using(crate::proofs::Steps::searches), unfolding(mapping::specs::Commands::map_device))]
pub fn map_device(g: Guest, k: Mapping, id: u64, itt: u64, bits: u64) -> Result<Mapping, Errno>
    requires { MapKept g k }
    ensures { Maps (rows k) result (map_device id itt bits (view g) (rows k)) }
{
    let d = Device {
        id: id,
        itt: itt,
        bits: bits,
    };
    device_fault(g, k, d)?;
    let at = mapping::place_device(&k, id);
    Ok(mapping::insert_device(k, at, d))
}

// A device's events go with it.
#[tactic(auto, using(crate::proofs::Steps::searches), unfolding(mapping::specs::Commands::unmap_device))]
pub fn unmap_device(k: Mapping, id: u64) -> Result<Mapping, Errno>
    requires { Within k }
    ensures { Maps (rows k) result (unmap_device id (rows k)) }
{
    let at = mapping::find_device(&k, id);
    if k.ndevices <= at {
        return Err(Errno::ENOENT);
    }
    let rest = mapping::remove_device(k, at);
    Ok(mapping::without_device_events(rest, id))
}

// A collection that stands gets the new pe.
#[tactic(auto, using(crate::proofs::Steps::searches), unfolding(mapping::specs::Commands::map_collection))]
pub fn map_collection(g: Guest, k: Mapping, icid: u64, pe: u64) -> Result<Mapping, Errno>
    requires { MapKept g k }
    ensures { Maps (rows k) result (map_collection icid pe (view g) (rows k)) }
{
    if ICIDS <= icid || g.vcpus.count as u64 <= pe {
        return Err(Errno::EINVAL);
    }
    let c = Collection { icid: icid, pe: pe };
    let at = mapping::find_collection(&k, icid);
    if at < k.ncollections {
        return Ok(mapping::set_collection(k, at, c));
    }
    if Guest::MAX_COLLECTIONS <= k.ncollections {
        return Err(Errno::ENOMEM);
    }
    let place = mapping::place_collection(&k, icid);
    Ok(mapping::insert_collection(k, place, c))
}

// A collection that an event names stays.
#[tactic(auto, using(crate::proofs::Steps::searches), unfolding(mapping::specs::Commands::unmap_collection))]
pub fn unmap_collection(k: Mapping, icid: u64) -> Result<Mapping, Errno>
    requires { Within k }
    ensures { Maps (rows k) result (unmap_collection icid (rows k)) }
{
    let at = mapping::find_collection(&k, icid);
    if k.ncollections <= at {
        return Err(Errno::ENOENT);
    }
    if mapping::find_named(&k, icid) < k.nevents {
        return Err(Errno::EINVAL);
    }
    Ok(mapping::remove_collection(k, at))
}

pub fn is_lpi(lpi: u64) -> bool
    ensures { result ≡ is_lpi lpi }
{
    (FIRST_LPI..=LAST_LPI).contains(&lpi)
}

// The fault of mapping an event.
#[tactic(auto, using(crate::proofs::Steps::searches, crate::proofs::Numbers::bits_small), unfolding(mapping::specs::Commands::event_fault))]
fn event_fault(k: &Mapping, device: u64, event: u64, lpi: u64, icid: u64) -> Result<(), Errno>
    requires { Sized k.now }
    ensures decided { fault result ≡ event_fault device event lpi icid (rows k.now) }
    ensures fitting { IfOk result (λ _. (k.now.nevents < 1024) × (device < 65536) × (event < 65536) × (lpi < 65536) × (icid < 65536)) }
{
    let at = mapping::find_device(k, device);
    if k.ndevices <= at {
        return Err(Errno::ENOENT);
    }
    let d = k.devices[at];
    if event_ids(d.bits) <= event {
        return Err(Errno::EINVAL);
    }
    if !is_lpi(lpi) {
        return Err(Errno::EINVAL);
    }
    if k.ncollections <= mapping::find_collection(k, icid) {
        return Err(Errno::ENOENT);
    }
    if mapping::find_event(k, device, event) < k.nevents {
        return Err(Errno::EEXIST);
    }
    if Guest::MAX_EVENTS <= k.nevents {
        return Err(Errno::ENOMEM);
    }
    Ok(())
}

#[tactic(auto, using(crate::proofs::Steps::searches), unfolding(mapping::specs::Commands::map_event))]
pub fn map_event(k: Mapping, device: u64, event: u64, lpi: u64, icid: u64) -> Result<Mapping, Errno>
    requires { Sized k }
    ensures { Maps (rows k) result (map_event device event lpi icid (rows k)) }
{
    event_fault(&k, device, event, lpi, icid)?;
    let e = Event {
        device: device as u16,
        event: event as u16,
        lpi: lpi as u16,
        icid: icid as u16,
    };
    let at = mapping::place_event(&k, device * 65536 + event);
    Ok(mapping::insert_event(k, at, e))
}

#[tactic(auto, using(crate::proofs::Steps::searches), unfolding(mapping::specs::Commands::discard))]
pub fn discard(k: Mapping, device: u64, event: u64) -> Result<Mapping, Errno>
    requires { Within k }
    ensures { Maps (rows k) result (discard device event (rows k)) }
{
    let at = mapping::find_event(&k, device, event);
    if k.nevents <= at {
        return Err(Errno::ENOENT);
    }
    Ok(mapping::remove_event(k, at))
}

// The event keeps its LPI.
#[tactic(auto, using(crate::proofs::Steps::searches, crate::proofs::Steps::unmoved))]
pub fn move_event(k: Mapping, device: u64, event: u64, icid: u64) -> Result<Mapping, Errno>
    requires { Sized k }
    ensures { Maps (rows k) result (move device event icid (rows k)) }
{
    let at = mapping::find_event(&k, device, event);
    if k.nevents <= at {
        return Err(Errno::ENOENT);
    }
    if k.ncollections <= mapping::find_collection(&k, icid) {
        return Err(Errno::ENOENT);
    }
    let mut e = k.events[at];
    e.icid = icid as u16;
    Ok(mapping::set_event(k, at, e))
}

// The VCPU that a collection that stands is for.
fn pe_of(k: &Mapping, icid: u64) -> u64
    requires { (Within k.now) × (has_collection icid (rows k.now) ≡ true) }
    ensures { result ≡ (get_or (rows k.now).collections (index_of_collection icid (rows k.now)) no_collection).pe }
{
    let at = mapping::find_collection(k, icid);
    let c = k.collections[at];
    c.pe
}

// LPI and VCPU of an event, as the one number of §5.13 that the C interface hands back.
#[tactic(auto, using(crate::proofs::Steps::searches, crate::proofs::Numbers::event_collected, crate::proofs::Numbers::pe_below), unfolding(mapping::specs::Commands::lookup))]
pub fn lookup(k: &Mapping, device: u64, event: u64) -> Result<u64, Errno>
    requires { Sized k.now }
    ensures { reading result ≡ lookup device event (rows k.now) }
{
    let found = mapping::find_event(k, device, event);
    if k.nevents <= found {
        return Err(Errno::ENOENT);
    }
    let e = k.events[found];
    let pe = pe_of(k, e.icid as u64);
    Ok(e.lpi as u64 + 65536 * pe)
}

pub fn is_empty(k: Mapping) -> bool
    requires { Within k }
    ensures { result ≡ is_empty (rows k) }
{
    k.ncollections == 0 && k.ndevices == 0 && k.nevents == 0
}

// Whether a table has 1 to 128 pages and starts at one.
#[tactic(auto, unfolding(mapping::specs::Commands::well_formed))]
fn well_formed(t: Table) -> bool
    ensures { result ≡ well_formed t }
{
    t.start % PAGE == 0 && (1..=MAX_PAGES).contains(&t.pages)
}

// The fault of placing a device table and a collection table, over both: any fault of form, then any place outside memory, then
// their overlap.
#[tactic(auto, using(crate::proofs::Faults::formed_pages), unfolding(mapping::specs::Commands::place_fault))]
pub fn place_fault(g: Guest, k: Mapping, d: Table, c: Table) -> Result<(), Errno>
    requires { Within k }
    ensures { fault result ≡ place_fault d c (view g) (rows k) }
{
    if !is_empty(k) {
        return Err(Errno::EBUSY);
    }
    if !(well_formed(d) && well_formed(c)) {
        return Err(Errno::EINVAL);
    }
    let m = memory_area(g.memory);
    let first = table_area(d);
    let second = table_area(c);
    if !(areas::inside(m, first) && areas::inside(m, second)) {
        return Err(Errno::EFAULT);
    }
    if areas::overlaps(first, second) {
        return Err(Errno::EINVAL);
    }
    Ok(())
}
