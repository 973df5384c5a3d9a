// Whether a state's bytes keep the rules of the ITS mapping: the test that they pass before any command goes on. Rows are read where
// they lie, since copies of the tables would take longer than the tests.
// No struct holds Counted, Sized and Examined: they are facts of the lent bytes, and maplayout's functions ask for them of the bytes.
#![tactic(auto)]

ghost use Rattle.std.specs.Prelude.{◌≡◌, ℕ, true, ◌&&◌, List, map, ◌≤◌, ◌<◌, length, get_or, drop, ltb};
ghost use Rattle.lists.specs.Rows.{all};
ghost use Rattle.areas.specs.Area.{inside, strikes, apart};
ghost use Rattle.layout.specs.Layout.{decode};
ghost use Rattle.rules.specs.Rules.{memory_area};
ghost use Rattle.mapping.specs.Mapped.{rising, find_key, device_key, collection_key, event_key, itt_area, no_device};
ghost use Rattle.mapping.specs.Commands.{table_areas, index_of_device, index_of_collection, is_empty};
ghost use Rattle.mapping.specs.MapRules.{collection_ok, device_ok, event_ok, map_rules};
ghost use Rattle.maplayout.specs.MapLayout.{decode_map, Counted};
ghost use Rattle.its.specs.Forms.{is_formed};
ghost use Rattle.mapcheck.specs.Examined.{Examined, Sized};
ghost use Rattle.mapcheck.specs.Reads.{Reads};

use areas::Area;
use guest::Memory;
use layout::{load_memory, load_tables, vcpu_count};
use maplayout::{collection_at, collection_count, device_at, device_count, event_at, event_count};
use mapping::{Collection, Device, Event, Keyed};

// Entries of 8 bytes in a page of a table (§5.4).
const PAGE_ENTRIES: u64 = 512;

// ICIDs are below this (§5.8).
const ICIDS: u64 = 65536;

// Whether no row stands.
fn is_empty(s: &[u8]) -> bool
    requires { Counted s.now }
    ensures { result ≡ is_empty (decode_map s.now) }
{
    collection_count(s) == 0 && device_count(s) == 0 && event_count(s) == 0
}

// Whether the key of each of n rows, which `at` reads by their index, is above the one before.
fn keys_rise<T: Keyed, F: Fn(usize) -> T>(n: usize, at: F) -> bool
    requires { (i : ℕ) → i < n → F.pre at i }
    ensures { (l : List T) (d : T) → Reads (F.post at) n l d → result ≡ rising T.key l }
{
    (1..n).all(|i| at(i - 1).key() < at(i).key())
}

// The index of the row of a key among n rows, which `at` reads by their index, or n.
fn find_row<T: Keyed, F: Fn(usize) -> T>(n: usize, at: F, key: u64) -> usize
    requires { (i : ℕ) → i < n → F.pre at i }
    ensures { (l : List T) (d : T) → Reads (F.post at) n l d → result ≡ find_key T.key key l }
{
    for i in 0..n {
        if at(i).key() == key {
            return i;
        }
    }
    n
}

// Whether the rows of every table rise, so that no ID stands twice.
fn rows_rise(s: &[u8]) -> bool
    requires { Counted s.now }
    ensures { result ≡ (rising collection_key (decode_map s.now).collections && (rising device_key (decode_map s.now).devices && rising event_key (decode_map s.now).events)) }
{
    keys_rise(collection_count(s), |i| collection_at(s, i))
        && (keys_rise(device_count(s), |i| device_at(s, i))
            && keys_rise(event_count(s), |i| event_at(s, i)))
}

// A collection is for one of the VCPUs.
fn collection_ok(vcpus: u64, c: Collection) -> bool
    ensures { result ≡ (ltb c.icid 65536 && ltb c.pe vcpus) }
{
    c.icid < ICIDS && c.pe < vcpus
}

fn collections_ok(s: &[u8]) -> bool
    requires { Examined s.now }
    ensures { result ≡ all (collection_ok (decode s.now)) (decode_map s.now).collections }
{
    let vcpus = vcpu_count(s) as u64;
    (0..collection_count(s)).all(|i| collection_ok(vcpus, collection_at(s, i)))
}

// The bits are tested before the size of the ITT is made of them.
fn device_ok(memory: Memory, entries: u64, d: Device) -> bool
    ensures { result ≡ (is_formed entries d && inside (memory_area memory) (itt_area d)) }
{
    let run = Area {
        start: memory.start,
        size: memory.length,
    };
    its::is_formed(d, entries) && areas::inside(run, its::itt_area(d))
}

fn devices_ok(s: &[u8]) -> bool
    requires { Examined s.now }
    ensures { result ≡ all (device_ok (decode s.now)) (decode_map s.now).devices }
{
    let memory = load_memory(s);
    let tables = load_tables(s);
    let entries = PAGE_ENTRIES * tables.devices.pages;
    (0..device_count(s)).all(|i| device_ok(memory, entries, device_at(s, i)))
}

// The ITT of the device at an index.
fn itt_at(s: &[u8], i: usize) -> Area
    requires { Sized s.now × (i < length (decode_map s.now).devices) }
    ensures { result ≡ itt_area (get_or (decode_map s.now).devices i no_device) }
{
    its::itt_area(device_at(s, i))
}

// Whether an area overlaps the ITT of one of the devices from `from` on.
fn strikes_itts(s: &[u8], from: usize, a: Area) -> bool
    requires { Sized s.now × (from ≤ length (decode_map s.now).devices) }
    ensures { result ≡ strikes (map itt_area (drop from (decode_map s.now).devices)) a }
{
    (from..device_count(s)).any(|i| areas::overlaps(a, itt_at(s, i)))
}

// Whether no two ITTs overlap: each is compared with those after it.
fn itts_apart(s: &[u8]) -> bool
    requires { Sized s.now }
    ensures { result ≡ apart (map itt_area (decode_map s.now).devices) }
{
    (0..device_count(s)).all(|i| !strikes_itts(s, i + 1, itt_at(s, i)))
}

// Whether no two of the tables in memory overlap, the devices' ITTs among them. That the device table and the collection table do
// not is one of the guest's own rules.
fn tables_apart(s: &[u8]) -> bool
    requires { Examined s.now × Sized s.now }
    ensures { result ≡ apart (table_areas (decode s.now) (decode_map s.now).devices) }
{
    let tables = load_tables(s);
    let devices = tables.devices;
    let collections = tables.collections;
    if strikes_itts(s, 0, its::table_area(devices)) {
        return false;
    }
    if strikes_itts(s, 0, its::table_area(collections)) {
        return false;
    }
    itts_apart(s)
}

// The index of the device of an ID, or the number of devices.
fn find_device(s: &[u8], id: u64) -> usize
    requires { Counted s.now }
    ensures { result ≡ index_of_device id (decode_map s.now) }
{
    find_row(device_count(s), |i| device_at(s, i), id)
}

// The same, by one look where the device at the index `likely` has the ID: rows rise, so no other row has it.
fn device_index(s: &[u8], likely: usize, id: u64) -> usize
    requires { Counted s.now × (rising device_key (decode_map s.now).devices ≡ true) }
    ensures { result ≡ index_of_device id (decode_map s.now) }
{
    if likely < device_count(s) && device_at(s, likely).id == id {
        return likely;
    }
    find_device(s, id)
}

// The index of the collection of an ICID, or the number of collections.
fn find_collection(s: &[u8], icid: u64) -> usize
    requires { Counted s.now }
    ensures { result ≡ index_of_collection icid (decode_map s.now) }
{
    find_row(collection_count(s), |i| collection_at(s, i), icid)
}

// Whether an event's device, sought to the index `at`, and its collection stand, and its numbers are in their ranges.
fn event_ok(s: &[u8], at: usize, e: Event) -> bool
    requires { Sized s.now × (at ≡ index_of_device e.device (decode_map s.now)) }
    ensures { result ≡ event_ok (decode_map s.now) e }
{
    if device_count(s) <= at {
        return false;
    }
    let d = device_at(s, at);
    if its::event_ids(d.bits) <= e.event as u64 {
        return false;
    }
    if !its::is_lpi(e.lpi as u64) {
        return false;
    }
    find_collection(s, e.icid as u64) < collection_count(s)
}

// Events rise by device, so that an event's device is most often that of the event before.
fn events_ok(s: &[u8]) -> bool
    requires { Sized s.now × (rising device_key (decode_map s.now).devices ≡ true) }
    ensures { result ≡ all (event_ok (decode_map s.now)) (decode_map s.now).events }
{
    let n = event_count(s);
    let mut at: usize = 0;
    for i in 0..n {
        let e = event_at(s, i);
        at = device_index(s, at, e.device as u64);
        if !event_ok(s, at, e) {
            return false;
        }
    }
    true
}

// Whether the mapping keeps every rule beside a guest that keeps its own. Where no tables are placed it is empty. The devices are
// tested before the ITTs and the events, whose tests rely on each device's bits and on rising IDs.
pub fn keeps_map_rules(s: &[u8]) -> bool
    requires { Examined s.now }
    ensures { result ≡ map_rules (decode s.now) (decode_map s.now) }
{
    let tables = load_tables(s);
    if tables.devices.set != 1 {
        return is_empty(s);
    }
    if !rows_rise(s) {
        return false;
    }
    if !collections_ok(s) {
        return false;
    }
    if !devices_ok(s) {
        return false;
    }
    if !tables_apart(s) {
        return false;
    }
    events_ok(s)
}
