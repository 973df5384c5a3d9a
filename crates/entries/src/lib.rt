#![tactic(auto)]

ghost use Rattle.std.specs.Prelude.{◌≡◌};
ghost use Rattle.entries.specs.Device.{DeviceFits, device_word, is_device, device_of};
ghost use Rattle.entries.specs.Collection.{CollectionFits, collection_word, is_collection, collection_of};
ghost use Rattle.entries.specs.Event.{EventFits, event_word, is_event, event_of};

// §6.2: an entry of the device table: the distance to the next device, the ITT's address and the number of event ID bits.
#[derive(Clone, Copy)]
pub struct DeviceEntry {
    pub next: u64,
    pub itt: u64,
    pub bits: u64,
}

// §6.3: an entry of the collection table: the number of a VCPU, and the collection that is for it.
#[derive(Clone, Copy)]
pub struct CollectionEntry {
    pub pe: u64,
    pub icid: u64,
}

// §6.4: an entry of an ITT: the distance to the next event, the LPI and the collection.
#[derive(Clone, Copy)]
pub struct EventEntry {
    pub next: u64,
    pub lpi: u64,
    pub icid: u64,
}

pub fn device_word(e: DeviceEntry) -> u64
    requires { DeviceFits e }
    ensures { result ≡ device_word e }
{
    let w = fields::field_put(0, 0, 5, e.bits - 1);
    let w = fields::field_put(w, 5, 44, e.itt >> 8);
    let w = fields::field_put(w, 49, 14, e.next);
    fields::field_put(w, 63, 1, 1)
}

pub fn device_valid(w: u64) -> bool
    ensures { result ≡ is_device w }
{
    fields::field_get(w, 63, 1) == 1
}

// Reads any word; what a blank one gives means nothing.
pub fn device_entry(w: u64) -> DeviceEntry
    ensures { result ≡ device_of w }
{
    let next = fields::field_get(w, 49, 14);
    let page = fields::field_get(w, 5, 44);
    let size = fields::field_get(w, 0, 5);
    DeviceEntry {
        next: next,
        itt: page << 8,
        bits: size + 1,
    }
}

pub fn collection_word(e: CollectionEntry) -> u64
    requires { CollectionFits e }
    ensures { result ≡ collection_word e }
{
    let w = fields::field_put(0, 0, 16, e.icid);
    let w = fields::field_put(w, 16, 36, e.pe);
    let w = fields::field_put(w, 52, 11, 0);
    fields::field_put(w, 63, 1, 1)
}

pub fn collection_valid(w: u64) -> bool
    ensures { result ≡ is_collection w }
{
    fields::field_get(w, 63, 1) == 1
}

// Reads any word; what a blank one gives means nothing.
pub fn collection_entry(w: u64) -> CollectionEntry
    ensures { result ≡ collection_of w }
{
    let pe = fields::field_get(w, 16, 36);
    let icid = fields::field_get(w, 0, 16);
    CollectionEntry { pe: pe, icid: icid }
}

pub fn event_word(e: EventEntry) -> u64
    requires { EventFits e }
    ensures { result ≡ event_word e }
{
    let w = fields::field_put(0, 0, 16, e.icid);
    let w = fields::field_put(w, 16, 32, e.lpi);
    fields::field_put(w, 48, 16, e.next)
}

pub fn event_valid(w: u64) -> bool
    ensures { result ≡ is_event w }
{
    fields::field_get(w, 16, 32) != 0
}

// Reads any word; what a blank one gives means nothing.
pub fn event_entry(w: u64) -> EventEntry
    ensures { result ≡ event_of w }
{
    let next = fields::field_get(w, 48, 16);
    let lpi = fields::field_get(w, 16, 32);
    let icid = fields::field_get(w, 0, 16);
    EventEntry {
        next: next,
        lpi: lpi,
        icid: icid,
    }
}
