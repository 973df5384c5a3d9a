// The ITS mapping (§5.1) as the code holds it: an array for each kind of row, as long as §1.6 lets it be, and the number of its rows in
// use. Rows stand in rising order; what lies past a count is never read.
#![tactic(auto)]

ghost use Rattle.std.specs.Prelude.{◌≡◌, ℕ, ◌+◌, ◌-◌, ◌≤◌, ◌<◌, set, take, length, eqb, leb, position};
ghost use Rattle.lists.specs.Rows.{find_ix};
ghost use Rattle.mapping.specs.Mapped.{rows, Within, Holds, empty, device_key, collection_key, event_key, is_event};
ghost use Rattle.mapping.specs.Mapped.{find_key, place_of, inserted_at, removed_at, kept};
ghost use Rattle.mapping.specs.Commands.{index_of_device, index_of_collection, index_of_event, names, of_other};
ghost use Rattle.mapping.specs.Commands.{with_devices, with_collections, with_events};

// §5.1: a mapped device, by its ID: the address of its interrupt translation table and the number of bits of its event IDs.
#[derive(Clone, Copy, Debug, PartialEq, Eq)]
pub struct Device {
    pub id: u64,
    pub itt: u64,
    pub bits: u64,
}

// §5.1: a mapped collection, by its ICID, and the number of the VCPU that it is for.
#[derive(Clone, Copy, Debug, PartialEq, Eq)]
pub struct Collection {
    pub icid: u64,
    pub pe: u64,
}

// §5.1: a mapped event, by its device and its event ID: its LPI and the ICID of its collection. Every number is below 65,536.
#[derive(Clone, Copy, Debug, PartialEq, Eq)]
pub struct Event {
    pub device: u16,
    pub event: u16,
    pub lpi: u16,
    pub icid: u16,
}

// A row has a key, which it is named by and which the rows of its table rise with.
pub trait Keyed: Copy {
    ghost key: { Self → ℕ };

    fn key(self) -> u64
        ensures { result ≡ key self };
}

impl Keyed for Device {
    ghost key = { device_key };

    fn key(self) -> u64 {
        self.id
    }
}

impl Keyed for Collection {
    ghost key = { collection_key };

    fn key(self) -> u64 {
        self.icid
    }
}

// Events rise with their device, and below it with their event ID.
impl Keyed for Event {
    ghost key = { event_key };

    fn key(self) -> u64 {
        (self.device as u64) * 65536 + (self.event as u64)
    }
}

// The arrays with their counts are asked for by name; that the counts fit, Within, is asked of each call and no invariant of the struct.
#[derive(Clone, Copy)]
pub struct Mapping {
    pub devices: [Device; 32],
    pub ndevices: usize,
    pub collections: [Collection; 16],
    pub ncollections: usize,
    pub events: [Event; 1024],
    pub nevents: usize,
}

impl Mapping {
    // No device, no collection and no event.
    pub fn new() -> Mapping
        ensures { Holds result empty }
    {
        let device = Device {
            id: 0,
            itt: 0,
            bits: 0,
        };
        let collection = Collection { icid: 0, pe: 0 };
        let event = Event {
            device: 0,
            event: 0,
            lpi: 0,
            icid: 0,
        };
        Mapping {
            devices: [device; 32],
            ndevices: 0,
            collections: [collection; 16],
            ncollections: 0,
            events: [event; 1024],
            nevents: 0,
        }
    }

    fn device_rows(&self) -> &[Device]
        requires { Within self.now }
        ensures { result.now ≡ (rows self.now).devices }
    {
        &self.devices[..self.ndevices]
    }

    fn collection_rows(&self) -> &[Collection]
        requires { Within self.now }
        ensures { result.now ≡ (rows self.now).collections }
    {
        &self.collections[..self.ncollections]
    }

    fn event_rows(&self) -> &[Event]
        requires { Within self.now }
        ensures { result.now ≡ (rows self.now).events }
    {
        &self.events[..self.nevents]
    }
}

// The row of a key, by its index.
fn row_of<T: Keyed>(rows: &[T], key: u64) -> Option<usize>
    ensures { result ≡ position (λ x. eqb (T.key x) key) rows.now }
{
    rows.iter().position(|r| r.key() == key)
}

// The first row whose key is not below this one, by its index.
fn row_from<T: Keyed>(rows: &[T], key: u64) -> Option<usize>
    ensures { result ≡ position (λ x. leb key (T.key x)) rows.now }
{
    rows.iter().position(|r| key <= r.key())
}

// The index of the row of a key, or the number of rows.
#[tactic(auto, using(lists::proofs::Searches::found_or_length))]
fn find_row<T: Keyed>(rows: &[T], key: u64) -> usize
    ensures { result ≡ find_key T.key key rows.now }
{
    row_of(rows, key).unwrap_or(rows.len())
}

// The index of the first row whose key is not below this one, or the number of rows.
#[tactic(auto, using(lists::proofs::Searches::found_or_length))]
fn place_row<T: Keyed>(rows: &[T], key: u64) -> usize
    ensures { result ≡ place_of T.key key rows.now }
{
    row_from(rows, key).unwrap_or(rows.len())
}

// A row put in at an index among the first n; those from there on move up by one.
fn insert_row<T: Copy>(rows: &mut [T], n: usize, i: usize, row: T)
    requires { (i ≤ n) × (n < length rows.old) }
    ensures len { length rows.new ≡ length rows.old }
    ensures put { take (n + 1) rows.new ≡ inserted_at i row (take n rows.old) }
{
    rows.copy_within(i..n, i + 1);
    rows[i] = row;
}

// The row at an index among the first n taken out; those after it move down by one.
fn remove_row<T: Copy>(rows: &mut [T], n: usize, i: usize)
    requires { (i < n) × (n ≤ length rows.old) }
    ensures len { length rows.new ≡ length rows.old }
    ensures out { take (n - 1) rows.new ≡ removed_at i (take n rows.old) }
{
    rows.copy_within(i + 1..n, i);
}

// What follows stands once for each kind of row, since the ITS commands call it by name; the work is in the functions above.

// The index of the device of an ID, or the number of devices.
pub fn find_device(k: &Mapping, id: u64) -> usize
    requires { Within k.now }
    ensures { result ≡ index_of_device id (rows k.now) }
{
    find_row(k.device_rows(), id)
}

// The index of the first device whose ID is not below this one, or the number of devices.
pub fn place_device(k: &Mapping, id: u64) -> usize
    requires { Within k.now }
    ensures { result ≡ place_of device_key id (rows k.now).devices }
{
    place_row(k.device_rows(), id)
}

// A device put in at an index; those from there on move up by one.
pub fn insert_device(mut k: Mapping, i: usize, d: Device) -> Mapping
    requires { (Within k) × (k.ndevices < 32) × (i ≤ k.ndevices) }
    ensures { Holds result (with_devices (inserted_at i d (rows k).devices) (rows k)) }
{
    let n = k.ndevices;
    insert_row(&mut k.devices, n, i, d);
    k.ndevices = n + 1;
    k
}

// The device at an index taken out; those after it move down by one.
pub fn remove_device(mut k: Mapping, i: usize) -> Mapping
    requires { (Within k) × (i < k.ndevices) }
    ensures { Holds result (with_devices (removed_at i (rows k).devices) (rows k)) }
{
    let n = k.ndevices;
    remove_row(&mut k.devices, n, i);
    k.ndevices = n - 1;
    k
}

// The index of the collection of an ICID, or the number of collections.
pub fn find_collection(k: &Mapping, icid: u64) -> usize
    requires { Within k.now }
    ensures { result ≡ index_of_collection icid (rows k.now) }
{
    find_row(k.collection_rows(), icid)
}

// The index of the first collection whose ICID is not below this one, or the number of collections.
pub fn place_collection(k: &Mapping, icid: u64) -> usize
    requires { Within k.now }
    ensures { result ≡ place_of collection_key icid (rows k.now).collections }
{
    place_row(k.collection_rows(), icid)
}

// A collection put in at an index; those from there on move up by one.
pub fn insert_collection(mut k: Mapping, i: usize, c: Collection) -> Mapping
    requires { (Within k) × (k.ncollections < 16) × (i ≤ k.ncollections) }
    ensures { Holds result (with_collections (inserted_at i c (rows k).collections) (rows k)) }
{
    let n = k.ncollections;
    insert_row(&mut k.collections, n, i, c);
    k.ncollections = n + 1;
    k
}

// The collection at an index taken out; those after it move down by one.
pub fn remove_collection(mut k: Mapping, i: usize) -> Mapping
    requires { (Within k) × (i < k.ncollections) }
    ensures { Holds result (with_collections (removed_at i (rows k).collections) (rows k)) }
{
    let n = k.ncollections;
    remove_row(&mut k.collections, n, i);
    k.ncollections = n - 1;
    k
}

// Another collection at an index.
#[tactic(auto, using(crate::proofs::Table::rows_set))]
pub fn set_collection(mut k: Mapping, i: usize, c: Collection) -> Mapping
    requires { (Within k) × (i < k.ncollections) }
    ensures { Holds result (with_collections (set (rows k).collections i c) (rows k)) }
{
    k.collections[i] = c;
    k
}

// The event of these IDs, by its index.
fn event_of(rows: &[Event], device: u64, event: u64) -> Option<usize>
    ensures { result ≡ position (is_event device event) rows.now }
{
    rows.iter()
        .position(|e| e.device as u64 == device && e.event as u64 == event)
}

// The first event that names a collection, by its index.
fn named_by(rows: &[Event], icid: u64) -> Option<usize>
    ensures { result ≡ position (names icid) rows.now }
{
    rows.iter().position(|e| e.icid as u64 == icid)
}

// The index of the event of these IDs, or the number of events.
#[tactic(auto, using(lists::proofs::Searches::found_or_length))]
pub fn find_event(k: &Mapping, device: u64, event: u64) -> usize
    requires { Within k.now }
    ensures { result ≡ index_of_event device event (rows k.now) }
{
    let rows = k.event_rows();
    event_of(rows, device, event).unwrap_or(rows.len())
}

// The index of the first event whose key is not below this one, or the number of events.
pub fn place_event(k: &Mapping, key: u64) -> usize
    requires { Within k.now }
    ensures { result ≡ place_of event_key key (rows k.now).events }
{
    place_row(k.event_rows(), key)
}

// The index of the first event that names a collection, or the number of events.
#[tactic(auto, using(lists::proofs::Searches::found_or_length))]
pub fn find_named(k: &Mapping, icid: u64) -> usize
    requires { Within k.now }
    ensures { result ≡ find_ix (names icid) (rows k.now).events }
{
    let rows = k.event_rows();
    named_by(rows, icid).unwrap_or(rows.len())
}

// An event put in at an index; those from there on move up by one.
pub fn insert_event(mut k: Mapping, i: usize, e: Event) -> Mapping
    requires { (Within k) × (k.nevents < 1024) × (i ≤ k.nevents) }
    ensures { Holds result (with_events (inserted_at i e (rows k).events) (rows k)) }
{
    let n = k.nevents;
    insert_row(&mut k.events, n, i, e);
    k.nevents = n + 1;
    k
}

// The event at an index taken out; those after it move down by one.
pub fn remove_event(mut k: Mapping, i: usize) -> Mapping
    requires { (Within k) × (i < k.nevents) }
    ensures { Holds result (with_events (removed_at i (rows k).events) (rows k)) }
{
    let n = k.nevents;
    remove_row(&mut k.events, n, i);
    k.nevents = n - 1;
    k
}

// Another event at an index.
#[tactic(auto, using(crate::proofs::Table::rows_set))]
pub fn set_event(mut k: Mapping, i: usize, e: Event) -> Mapping
    requires { (Within k) × (i < k.nevents) }
    ensures { Holds result (with_events (set (rows k).events i e) (rows k)) }
{
    k.events[i] = e;
    k
}

// The events of other devices among the first n, moved down to the front; how many they are. The second index is by hand: what a slice has for this
// (`retain`) is Vec's alone, and there is no heap.
fn keep_others(events: &mut [Event], n: usize, id: u64) -> usize
    requires { n ≤ length events.old }
    ensures len { length events.new ≡ length events.old }
    ensures few { result ≤ n }
    ensures kept { take result events.new ≡ kept (of_other id) (take n events.old) }
{
    let mut j: usize = 0;
    for i in 0..n {
        let e = events[i];
        if e.device as u64 != id {
            events[j] = e;
            j += 1;
        }
    }
    j
}

// The events of a device taken out; the others move down.
pub fn without_device_events(mut k: Mapping, id: u64) -> Mapping
    requires { Within k }
    ensures { Holds result (with_events (kept (of_other id) (rows k).events) (rows k)) }
{
    let n = k.nevents;
    k.nevents = keep_others(&mut k.events, n, id);
    k
}
