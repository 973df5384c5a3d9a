// Save (§7.2 to §7.6): the mapping written into lent guest memory. The rows are read where they lie in the state's bytes, one by
// one, so that no table of them is copied.
#![tactic(auto)]

ghost use Rattle.std.specs.Prelude.{ℕ, List, get_or, ◌≡◌, ◌++◌, ◌+◌, ◌-◌, ◌*◌, ◌^◌, ◌≤◌, ◌<◌, length};
ghost use Rattle.words.specs.Words.{bytes_of, put_at};
ghost use Rattle.layout.specs.Layout.{decode};
ghost use Rattle.maplayout.specs.MapLayout.{decode_map, Counted};
ghost use Rattle.mapping.specs.Mapped.{device_key, no_device, no_event};
ghost use Rattle.chains.specs.Slots.{Cap, capped, uncapped};
ghost use Rattle.tables.specs.Bytes.{device_cap};
ghost use Rattle.tables.specs.Saved.{table_of, device_entry, event_entry, event_id, chain_word, saved_device, saved_collection, saved_event, saved_itts, saved_memory};
ghost use Rattle.save.specs.Saving.{blank, row_after, collection_entry, run_of, first_event, saved_itt};
ghost use Rattle.save.specs.Saving.{DeviceGood, CollectionGood, AnyEvent, ChainReady, DevicesReady, CollectionsReady};
ghost use Rattle.save.specs.Saving.{IttCursor, IttsReady, Saveable};

// The cap of §7.2: the largest next that a device's entry has room for.
const DEVICE_CAP: u64 = 16383;

// The word of entry `i` of a table that starts at index `at` of memory.
fn put_entry(mem: &mut [u8], at: usize, i: usize, word: u64)
    requires { at + i * 8 + 8 ≤ length mem.old }
    ensures { mem.new ≡ put_at mem.old (at + i * 8) (bytes_of 8 word) }
{
    words::put64(mem, at + i * 8, word);
}

// Blank entries, from entry `from` up to entry `to`: no old byte stays in them.
fn write_blanks(mem: &mut [u8], at: usize, from: usize, to: usize)
    requires { (from ≤ to) × (at + to * 8 ≤ length mem.old) }
    ensures { mem.new ≡ put_at mem.old (at + from * 8) (table_of blank (to - from)) }
{
    mem[at + from * 8..at + to * 8].fill(0);
}

// Blank entries, from entry `from` up to an ID's, and the ID's word.
fn write_next(mem: &mut [u8], at: usize, from: usize, id: usize, word: u64)
    requires { (from ≤ id) × (at + id * 8 + 8 ≤ length mem.old) }
    ensures { mem.new ≡ put_at mem.old (at + from * 8) (table_of blank (id - from) ++ bytes_of 8 word) }
{
    write_blanks(mem, at, from, id);
    put_entry(mem, at, id, word);
}

// The row after row `j` of those before row `to`, or `j` itself at the last: its distance to itself is the 0 of a last entry.
fn row_after(j: usize, to: usize) -> usize
    requires { j < to }
    ensures { (result ≡ row_after j to) × (result < to) }
{
    (j + 1).min(to - 1)
}

// The distance from a device's ID to the following device's as its entry holds it, at most the cap: 0 from a last row to itself. An
// event's entry has room for every distance in an ITT.
fn device_next(from: u64, to: u64) -> u64
    ensures { result ≡ capped device_cap (to - from) }
{
    to.saturating_sub(from).min(DEVICE_CAP)
}

// The rows that a chained table is written of (§7.2): how one is read, the entry that its ID numbers, and its word, with the distance
// to the ID of the row that follows.
trait Chained {
    type Row: Copy;

    ghost rows: { List ℕ → List Self.Row };

    ghost none: { Self.Row };

    ghost key: { Self.Row → ℕ };

    ghost word: { Self.Row → ℕ → ℕ };

    ghost cap: { Cap };

    ghost Good: { Self.Row → Type 0 };

    fn row(s: &[u8], j: usize) -> Self::Row
        requires { Counted s.now × (j < length (rows s.now)) }
        ensures { result ≡ get_or (rows s.now) j none };

    fn id(row: Self::Row) -> usize
        ensures { result ≡ key row };

    fn entry(row: Self::Row, following: Self::Row) -> u64
        requires { Good row }
        ensures { result ≡ word row (capped cap (key following - key row)) };
}

// A chained table, `n` entries from index `at`: a word for each of the rows from `from` up to `to`, blanks before, between and after
// them. Entries below `i` are written, and rows before `j`.
fn write_chain<C: Chained>(s: &[u8], mem: &mut [u8], at: usize, n: usize, from: usize, to: usize)
    requires { Counted s.now × ChainReady C.key C.Good (length mem.old) at n (C.rows s.now) from to }
    ensures { mem.new ≡ put_at mem.old at (table_of (chain_word C.key C.word C.cap (run_of (C.rows s.now) from to)) n) }
{
    let mut i: usize = 0;
    for j in from..to {
        let row = C::row(s, j);
        let following = C::row(s, row_after(j, to));
        let id = C::id(row);
        write_next(mem, at, i, id, C::entry(row, following));
        i = id + 1;
    }
    write_blanks(mem, at, i, n);
}

struct Devices;

impl Chained for Devices {
    type Row = mapping::Device;

    ghost rows = { λ s. (decode_map s).devices };

    ghost none = { no_device };

    ghost key = { device_key };

    ghost word = { device_entry };

    ghost cap = { device_cap };

    ghost Good = { DeviceGood };

    fn row(s: &[u8], j: usize) -> mapping::Device {
        maplayout::device_at(s, j)
    }

    fn id(row: mapping::Device) -> usize {
        row.id as usize
    }

    fn entry(row: mapping::Device, following: mapping::Device) -> u64 {
        entries::device_word(entries::DeviceEntry {
            next: device_next(row.id, following.id),
            itt: row.itt,
            bits: row.bits,
        })
    }
}

struct Events;

impl Chained for Events {
    type Row = mapping::Event;

    ghost rows = { λ s. (decode_map s).events };

    ghost none = { no_event };

    ghost key = { event_id };

    ghost word = { event_entry };

    ghost cap = { uncapped };

    ghost Good = { AnyEvent };

    fn row(s: &[u8], j: usize) -> mapping::Event {
        maplayout::event_at(s, j)
    }

    fn id(row: mapping::Event) -> usize {
        row.event as usize
    }

    fn entry(row: mapping::Event, following: mapping::Event) -> u64 {
        entries::event_word(entries::EventEntry {
            next: (following.event as u64).saturating_sub(row.event as u64),
            lpi: row.lpi as u64,
            icid: row.icid as u64,
        })
    }
}

// The device table, `n` entries from index `at`.
fn write_devices(s: &[u8], mem: &mut [u8], at: usize, n: usize)
    requires { Counted s.now × DevicesReady (length mem.old) at n (decode_map s.now).devices }
    ensures { mem.new ≡ put_at mem.old at (table_of (saved_device (decode_map s.now).devices) n) }
{
    write_chain::<Devices>(s, mem, at, n, 0, maplayout::device_count(s));
}

fn collection_word(c: mapping::Collection) -> u64
    requires { CollectionGood c }
    ensures { result ≡ collection_entry c }
{
    entries::collection_word(entries::CollectionEntry {
        pe: c.pe,
        icid: c.icid,
    })
}

// The collection table, `n` entries from index `at`: the collections in rising ICID from entry 0, and blanks after them. Row `i` is
// entry `i`.
fn write_collections(s: &[u8], mem: &mut [u8], at: usize, n: usize)
    requires { Counted s.now × CollectionsReady (length mem.old) at n (decode_map s.now).collections }
    ensures { mem.new ≡ put_at mem.old at (table_of (saved_collection (decode_map s.now).collections) n) }
{
    let count = maplayout::collection_count(s);
    for i in 0..count {
        let c = maplayout::collection_at(s, i);
        put_entry(mem, at, i, collection_word(c));
    }
    write_blanks(mem, at, count, n);
}

// The first row of events whose device is not below `id`, or the number of events. It is not before row `from`, so that a search
// goes on where an earlier one ended.
fn first_event(s: &[u8], from: usize, id: u64) -> usize
    requires { Counted s.now × (from ≤ first_event id (decode_map s.now).events) }
    ensures { result ≡ first_event id (decode_map s.now).events }
{
    let n = maplayout::event_count(s);
    for j in from..n {
        let e = maplayout::event_at(s, j);
        if id <= e.device as u64 {
            return j;
        }
    }
    n
}

// The number of entries of an ITT.
fn itt_entries(bits: u64) -> usize
    requires { bits ≤ 16 }
    ensures { result ≡ 2 ^ bits }
{
    1 << bits
}

// The ITT of a device, whose events do not stand before row `j`. Hands back the row past them, where the next device's may stand.
fn write_itt(s: &[u8], mem: &mut [u8], start: u64, d: mapping::Device, j: usize) -> usize
    requires { Counted s.now × IttCursor start (length mem.old) (decode_map s.now).events d j }
    ensures { (mem.new ≡ saved_itt start (decode_map s.now).events d mem.old) × (result ≡ first_event (d.id + 1) (decode_map s.now).events) }
{
    let from = first_event(s, j, d.id);
    let to = first_event(s, from, d.id + 1);
    let at = (d.itt - start) as usize;
    write_chain::<Events>(s, mem, at, itt_entries(d.bits), from, to);
    to
}

// The ITT of each device, in memory that starts at `start`. Events rise with their device, so each is passed once.
fn write_itts(s: &[u8], mem: &mut [u8], start: u64)
    requires { Counted s.now × IttsReady start (length mem.old) (decode_map s.now) }
    ensures { mem.new ≡ saved_itts start (decode_map s.now).devices (decode_map s.now).events mem.old }
{
    let n = maplayout::device_count(s);
    let mut j: usize = 0;
    for i in 0..n {
        let d = maplayout::device_at(s, i);
        j = write_itt(s, mem, start, d, j);
    }
}

// The device table, the collection table and the ITTs of the mapping that the state's bytes hold, written into the guest's memory. No
// other byte changes.
pub fn save_tables(s: &[u8], mem: &mut [u8])
    requires { Saveable s.now (length mem.old) }
    ensures { mem.new ≡ saved_memory (decode s.now) (decode_map s.now) mem.old }
{
    let start = layout::load_memory(s).start;
    let tables = layout::load_tables(s);
    let devices = tables.devices;
    let collections = tables.collections;
    write_devices(
        s,
        mem,
        (devices.start - start) as usize,
        (512 * devices.pages) as usize,
    );
    write_collections(
        s,
        mem,
        (collections.start - start) as usize,
        (512 * collections.pages) as usize,
    );
    write_itts(s, mem, start);
}
