// The mapping's part of the state as lent bytes: loading and storing cost what is in use, not what there is room for.
#![tactic(auto)]

ghost use Rattle.std.specs.Prelude.{◌≡◌, true, [], ◌∷◌, ◌+◌, ◌*◌, ◌≤◌, ◌<◌, length, take, drop, get_or};
ghost use Rattle.words.specs.Words.{rows_of, bytes_all, bytes_of, put_at};
ghost use Rattle.layout.specs.Layout.{size};
ghost use Rattle.mapping.specs.Mapped.{rows, Within, empty, no_device, no_collection, no_event};
ghost use Rattle.maplayout.specs.Sizes.{device_sized, collection_sized, event_sized};
ghost use Rattle.maplayout.specs.MapLayout.{device_of, device_bytes, collection_of, collection_bytes, event_of, event_bytes, decode_map, stored_map, map_counts_ok, Counted};
ghost use Rattle.maplayout.specs.Added.{device_added, collection_added, event_added};

use layout::{Layout, load_rows, put_row, row_at, store_rows, store_words};
use mapping::{Collection, Device, Event, Mapping};
use words::{get16, get64, put16, put64};

struct DeviceRows;

impl Layout for DeviceRows {
    type Row = Device;

    ghost START = { 2376 };

    ghost SIZE = { 24 };

    ghost of = { device_of };

    ghost bytes = { device_bytes };

    const START: usize = 2376;

    const SIZE: usize = 24;

    fn load(s: &[u8], at: usize) -> Device {
        Device {
            id: get64(s, at),
            itt: get64(s, at + 8),
            bits: get64(s, at + 16),
        }
    }

    fn store(s: &mut [u8], at: usize, row: Device) {
        store_words(s, at, &[row.id, row.itt, row.bits]);
    }

    ghost sized = { device_sized };
}

struct CollectionRows;

impl Layout for CollectionRows {
    type Row = Collection;

    ghost START = { 3144 };

    ghost SIZE = { 4 };

    ghost of = { collection_of };

    ghost bytes = { collection_bytes };

    const START: usize = 3144;

    const SIZE: usize = 4;

    fn load(s: &[u8], at: usize) -> Collection {
        Collection {
            icid: get16(s, at),
            pe: get16(s, at + 2),
        }
    }

    fn store(s: &mut [u8], at: usize, row: Collection) {
        put16(s, at, row.icid);
        put16(s, at + 2, row.pe);
    }

    ghost sized = { collection_sized };
}

struct EventRows;

impl Layout for EventRows {
    type Row = Event;

    ghost START = { 3208 };

    ghost SIZE = { 8 };

    ghost of = { event_of };

    ghost bytes = { event_bytes };

    const START: usize = 3208;

    const SIZE: usize = 8;

    fn load(s: &[u8], at: usize) -> Event {
        Event {
            device: get16(s, at) as u16,
            event: get16(s, at + 2) as u16,
            lpi: get16(s, at + 4) as u16,
            icid: get16(s, at + 6) as u16,
        }
    }

    fn store(s: &mut [u8], at: usize, row: Event) {
        put16(s, at, row.device as u64);
        put16(s, at + 2, row.event as u64);
        put16(s, at + 4, row.lpi as u64);
        put16(s, at + 6, row.icid as u64);
    }

    ghost sized = { event_sized };
}

// Whether every table's number of rows is within the room for it: tested before anything is loaded.
pub fn map_counts_ok(s: &[u8]) -> bool
    requires { length s.now ≡ size }
    ensures { result ≡ map_counts_ok s.now }
{
    get64(s, 2352) <= 32 && get64(s, 2360) <= 16 && get64(s, 2368) <= 1024
}

// The numbers of rows and the rows one by one, read where they lie: a test of the bytes, or a save, need not load the tables.
pub fn device_count(s: &[u8]) -> usize
    requires { Counted s.now }
    ensures { result ≡ length (decode_map s.now).devices }
{
    get64(s, 2352) as usize
}

pub fn collection_count(s: &[u8]) -> usize
    requires { Counted s.now }
    ensures { result ≡ length (decode_map s.now).collections }
{
    get64(s, 2360) as usize
}

pub fn event_count(s: &[u8]) -> usize
    requires { Counted s.now }
    ensures { result ≡ length (decode_map s.now).events }
{
    get64(s, 2368) as usize
}

pub fn device_at(s: &[u8], i: usize) -> Device
    requires { Counted s.now × (i < length (decode_map s.now).devices) }
    ensures { result ≡ get_or (decode_map s.now).devices i no_device }
{
    row_at::<DeviceRows>(s, i)
}

pub fn collection_at(s: &[u8], i: usize) -> Collection
    requires { Counted s.now × (i < length (decode_map s.now).collections) }
    ensures { result ≡ get_or (decode_map s.now).collections i no_collection }
{
    row_at::<CollectionRows>(s, i)
}

pub fn event_at(s: &[u8], i: usize) -> Event
    requires { Counted s.now × (i < length (decode_map s.now).events) }
    ensures { result ≡ get_or (decode_map s.now).events i no_event }
{
    row_at::<EventRows>(s, i)
}

// The mapping that the bytes hold.
pub fn load_mapping(s: &[u8]) -> Mapping
    requires { (length s.now ≡ size) × (map_counts_ok s.now ≡ true) }
    ensures { (rows result ≡ decode_map s.now) × Within result }
{
    let ndevices = get64(s, 2352) as usize;
    let ncollections = get64(s, 2360) as usize;
    let nevents = get64(s, 2368) as usize;
    let device = Device {
        id: 0,
        itt: 0,
        bits: 0,
    };
    let event = Event {
        device: 0,
        event: 0,
        lpi: 0,
        icid: 0,
    };
    Mapping {
        devices: load_rows::<DeviceRows, 32>(s, ndevices, device),
        ndevices,
        collections: load_rows::<CollectionRows, 16>(
            s,
            ncollections,
            Collection { icid: 0, pe: 0 },
        ),
        ncollections,
        events: load_rows::<EventRows, 1024>(s, nevents, event),
        nevents,
    }
}

// The mapping's bytes, over what the state held; what lies past the rows stays.
pub fn store_mapping(s: &mut [u8], k: Mapping)
    requires { (length s.old ≡ size) × Within k }
    ensures { s.new ≡ stored_map (rows k) s.old }
{
    store_rows::<EventRows>(s, &k.events[..k.nevents]);
    store_rows::<CollectionRows>(s, &k.collections[..k.ncollections]);
    store_rows::<DeviceRows>(s, &k.devices[..k.ndevices]);
    store_words(
        s,
        2352,
        &[k.ndevices as u64, k.ncollections as u64, k.nevents as u64],
    );
}

// The mapping's bytes grown one row at a time, for a reader of tables that holds no mapping of its own.
pub fn store_empty(s: &mut [u8])
    requires { length s.old ≡ size }
    ensures { s.new ≡ stored_map empty s.old }
{
    store_words(s, 2352, &[0, 0, 0]);
}

pub fn add_device(s: &mut [u8], d: Device)
    requires { Counted s.old × (length (decode_map s.old).devices < 32) }
    ensures { s.new ≡ device_added d s.old }
{
    let n = device_count(s);
    put_row::<DeviceRows>(s, n, d);
    put64(s, 2352, (n + 1) as u64);
}

// The collections from the index on move up by one: each makes room for the one before it, row by row, as the definition `collection_added` has
// rows and no bytes.
fn shift_collections(s: &mut [u8], i: usize, n: usize, c: Collection)
    requires { Counted s.old × (i ≤ n) × (n ≡ length (decode_map s.old).collections) × (n < 16) }
    ensures { s.new ≡ put_at s.old (3144 + i * 4) (bytes_all collection_bytes (c ∷ drop i (decode_map s.old).collections)) }
{
    let mut carry = c;
    for j in i..n {
        let row = row_at::<CollectionRows>(s, j);
        put_row::<CollectionRows>(s, j, carry);
        carry = row;
    }
    put_row::<CollectionRows>(s, n, carry);
}

pub fn insert_collection(s: &mut [u8], i: usize, c: Collection)
    requires { Counted s.old × (i ≤ length (decode_map s.old).collections) × (length (decode_map s.old).collections < 16) }
    ensures { s.new ≡ collection_added i c s.old }
{
    let n = collection_count(s);
    shift_collections(s, i, n, c);
    put64(s, 2360, (n + 1) as u64);
}

pub fn add_event(s: &mut [u8], e: Event)
    requires { Counted s.old × (length (decode_map s.old).events < 1024) }
    ensures { s.new ≡ event_added e s.old }
{
    let n = event_count(s);
    put_row::<EventRows>(s, n, e);
    put64(s, 2368, (n + 1) as u64);
}
