// The guest's state as lent bytes: loading and storing cost what is in use, not what there is room for.
#![tactic(auto)]

ghost use Rattle.std.specs.Prelude.{ℕ, List, ◌≡◌, true, [], ◌∷◌, ◌+◌, ◌*◌, ◌≤◌, ◌<◌, length, take, drop, get_or};
ghost use Rattle.words.specs.Words.{rows_of, bytes_all, bytes_of, put_at};
ghost use Rattle.guest.specs.Machine.{view, Held, shared_count, no_region, no_vcpu, no_bank};
ghost use Rattle.layout.specs.Sizes.{region_sized, vcpu_sized, bank_sized};
ghost use Rattle.layout.specs.Layout.{size, memory_of, control_of, frame_at, frames_of, table_at, tables_of, region_of, region_bytes, vcpu_of, vcpu_bytes, bank_of, bank_bytes, control_words, frames_words, tables_words, head_words, decode, stored, counts_ok, Counted};

use guest::{
    Bank, Banks, Control, Frame, Frames, Guest, Memory, Region, Regions, Table, Tables, Vcpu, Vcpus,
};
use words::{get32, get64, put32, put64};

// A table of the state: the index of its first row, how many bytes a row has, and how a row is read and stored at an index. It is a
// trait of a type that names the table, and not of the row: another crate's row may have its table here.
pub trait Layout {
    type Row: Copy;

    ghost START: { ℕ };

    ghost SIZE: { ℕ };

    ghost of: { List ℕ → Self.Row };

    ghost bytes: { Self.Row → List ℕ };

    const START: usize;

    const SIZE: usize;

    fn load(s: &[u8], at: usize) -> Self::Row
        requires { at + SIZE ≤ length s.now }
        ensures { result ≡ of (take SIZE (drop at s.now)) };

    fn store(s: &mut [u8], at: usize, row: Self::Row)
        requires { at + SIZE ≤ length s.old }
        ensures { s.new ≡ put_at s.old at (bytes row) };

    ghost sized: { (r : Self.Row) → length (bytes r) ≡ SIZE };
}

struct RegionRows;

impl Layout for RegionRows {
    type Row = Region;

    ghost START = { 184 };

    ghost SIZE = { 16 };

    ghost of = { region_of };

    ghost bytes = { region_bytes };

    const START: usize = 184;

    const SIZE: usize = 16;

    fn load(s: &[u8], at: usize) -> Region {
        Region {
            base: get64(s, at),
            count: get64(s, at + 8),
        }
    }

    fn store(s: &mut [u8], at: usize, row: Region) {
        store_words(s, at, &[row.base, row.count]);
    }

    ghost sized = { region_sized };
}

struct BankRows;

impl Layout for BankRows {
    type Row = Bank;

    ghost START = { 1976 };

    ghost SIZE = { 12 };

    ghost of = { bank_of };

    ghost bytes = { bank_bytes };

    const START: usize = 1976;

    const SIZE: usize = 12;

    fn load(s: &[u8], at: usize) -> Bank {
        Bank {
            latch: get32(s, at),
            level: get32(s, at + 4),
            trigger: get32(s, at + 8),
        }
    }

    fn store(s: &mut [u8], at: usize, row: Bank) {
        put32(s, at, row.latch);
        put32(s, at + 4, row.level);
        put32(s, at + 8, row.trigger);
    }

    ghost sized = { bank_sized };
}

struct VcpuRows;

impl Layout for VcpuRows {
    type Row = Vcpu;

    ghost START = { 696 };

    ghost SIZE = { 20 };

    ghost of = { vcpu_of };

    ghost bytes = { vcpu_bytes };

    const START: usize = 696;

    const SIZE: usize = 20;

    fn load(s: &[u8], at: usize) -> Vcpu {
        Vcpu {
            affinity: get32(s, at),
            bank: BankRows::load(s, at + 4),
            status: get32(s, at + 16),
        }
    }

    fn store(s: &mut [u8], at: usize, row: Vcpu) {
        put32(s, at, row.affinity);
        BankRows::store(s, at + 4, row.bank);
        put32(s, at + 16, row.status);
    }

    ghost sized = { vcpu_sized };
}

// Row `i` of a table: read, and stored.
pub fn row_at<T: Layout>(s: &[u8], i: usize) -> T::Row
    requires { T.START + i * T.SIZE + T.SIZE ≤ length s.now }
    ensures { result ≡ T.of (take T.SIZE (drop (T.START + i * T.SIZE) s.now)) }
{
    T::load(s, T::START + i * T::SIZE)
}

pub fn put_row<T: Layout>(s: &mut [u8], i: usize, row: T::Row)
    requires { T.START + i * T.SIZE + T.SIZE ≤ length s.old }
    ensures { s.new ≡ put_at s.old (T.START + i * T.SIZE) (T.bytes row) }
{
    T::store(s, T::START + i * T::SIZE, row);
}

// The first rows of a table, as many as the slice has. By index, since a proof knows no row that is written through `iter_mut`.
fn fill_rows<T: Layout>(s: &[u8], rows: &mut [T::Row])
    requires { T.START + length rows.old * T.SIZE ≤ length s.now }
    ensures { rows.new ≡ rows_of T.of T.SIZE (length rows.old) (drop T.START s.now) }
{
    for i in 0..rows.len() {
        rows[i] = row_at::<T>(s, i);
    }
}

// The first `n` rows of a table, in an array with room for N, whose other rows are blank.
pub fn load_rows<T: Layout, const N: usize>(s: &[u8], n: usize, blank: T::Row) -> [T::Row; N]
    requires { (n ≤ N) × (T.START + n * T.SIZE ≤ length s.now) }
    ensures { take n result ≡ rows_of T.of T.SIZE n (drop T.START s.now) }
{
    let mut rows = [blank; N];
    fill_rows::<T>(s, &mut rows[..n]);
    rows
}

// The first rows of a table, over what stood there.
pub fn store_rows<T: Layout>(s: &mut [u8], rows: &[T::Row])
    requires { T.START + length rows.now * T.SIZE ≤ length s.old }
    ensures { s.new ≡ put_at s.old T.START (bytes_all T.bytes rows.now) }
{
    for (i, row) in rows.iter().enumerate() {
        put_row::<T>(s, i, *row);
    }
}

pub fn load_memory(s: &[u8]) -> Memory
    requires { length s.now ≡ size }
    ensures { result ≡ memory_of s.now }
{
    Memory {
        width: get64(s, 0),
        start: get64(s, 8),
        length: get64(s, 16),
    }
}

pub fn load_control(s: &[u8]) -> Control
    requires { length s.now ≡ size }
    ensures { result ≡ control_of s.now }
{
    Control {
        init: get64(s, 24),
        running: get64(s, 32),
        irqs: get64(s, 40),
        irqsset: get64(s, 48),
        status: get64(s, 56),
        itsinit: get64(s, 64),
    }
}

fn load_frame(s: &[u8], at: usize) -> Frame
    requires { at + 16 ≤ length s.now }
    ensures { result ≡ frame_at s.now at }
{
    Frame {
        set: get64(s, at),
        base: get64(s, at + 8),
    }
}

pub fn load_frames(s: &[u8]) -> Frames
    requires { length s.now ≡ size }
    ensures { result ≡ frames_of s.now }
{
    Frames {
        distributor: load_frame(s, 72),
        single: load_frame(s, 88),
        its: load_frame(s, 104),
    }
}

fn load_table(s: &[u8], at: usize) -> Table
    requires { at + 24 ≤ length s.now }
    ensures { result ≡ table_at s.now at }
{
    Table {
        set: get64(s, at),
        start: get64(s, at + 8),
        pages: get64(s, at + 16),
    }
}

pub fn load_tables(s: &[u8]) -> Tables
    requires { length s.now ≡ size }
    ensures { result ≡ tables_of s.now }
{
    Tables {
        devices: load_table(s, 120),
        collections: load_table(s, 144),
    }
}

// How many shared banks an interrupt count has.
fn shared_count(irqs: u64) -> u64
    ensures { result ≡ shared_count irqs }
{
    (irqs / 32).saturating_sub(1)
}

// Numbers of 8 bytes each, one after the other.
pub fn store_words(s: &mut [u8], at: usize, words: &[u64])
    requires { at + length words.now * 8 ≤ length s.old }
    ensures { s.new ≡ put_at s.old at (bytes_all (bytes_of 8) words.now) }
{
    for (i, word) in words.iter().enumerate() {
        put64(s, at + i * 8, *word);
    }
}

// Whether every table's number of rows is within the room for it: tested before anything is loaded.
pub fn counts_ok(s: &[u8]) -> bool
    requires { length s.now ≡ size }
    ensures { result ≡ counts_ok s.now }
{
    get64(s, 168) <= 32 && get64(s, 176) <= 64 && shared_count(get64(s, 40)) <= 31
}

// The numbers of rows and the rows one by one, read where they lie: the test of the bytes need not load the tables.
pub fn region_count(s: &[u8]) -> usize
    requires { Counted s.now }
    ensures { result ≡ length (decode s.now).regions }
{
    get64(s, 168) as usize
}

pub fn vcpu_count(s: &[u8]) -> usize
    requires { Counted s.now }
    ensures { result ≡ length (decode s.now).vcpus }
{
    get64(s, 176) as usize
}

pub fn region_at(s: &[u8], i: usize) -> Region
    requires { Counted s.now × (i < length (decode s.now).regions) }
    ensures { result ≡ get_or (decode s.now).regions i no_region }
{
    row_at::<RegionRows>(s, i)
}

pub fn vcpu_at(s: &[u8], i: usize) -> Vcpu
    requires { Counted s.now × (i < length (decode s.now).vcpus) }
    ensures { result ≡ get_or (decode s.now).vcpus i (no_vcpu 0) }
{
    row_at::<VcpuRows>(s, i)
}

pub fn bank_count(s: &[u8]) -> usize
    requires { Counted s.now }
    ensures { result ≡ length (decode s.now).shared }
{
    shared_count(get64(s, 40)) as usize
}

pub fn bank_at(s: &[u8], i: usize) -> Bank
    requires { Counted s.now × (i < length (decode s.now).shared) }
    ensures { result ≡ get_or (decode s.now).shared i no_bank }
{
    row_at::<BankRows>(s, i)
}

// The guest that the bytes hold.
pub fn load_guest(s: &[u8]) -> Guest
    requires { (length s.now ≡ size) × (counts_ok s.now ≡ true) }
    ensures { (view result ≡ decode s.now) × Held result }
{
    let control = load_control(s);
    let regions = get64(s, 168) as usize;
    let vcpus = get64(s, 176) as usize;
    let banks = shared_count(control.irqs) as usize;
    Guest {
        memory: load_memory(s),
        control: control,
        frames: load_frames(s),
        regions: Regions {
            rows: load_rows::<RegionRows, 32>(s, regions, Region { base: 0, count: 0 }),
            count: regions,
        },
        vcpus: Vcpus {
            rows: load_rows::<VcpuRows, 64>(s, vcpus, guest::fresh_vcpu(0)),
            count: vcpus,
        },
        shared: Banks {
            rows: load_rows::<BankRows, 31>(s, banks, guest::fresh_bank()),
            count: banks,
        },
        tables: load_tables(s),
    }
}

fn store_control(s: &mut [u8], c: Control)
    requires { length s.old ≡ size }
    ensures { s.new ≡ put_at s.old 24 (bytes_all (bytes_of 8) (control_words c)) }
{
    store_words(
        s,
        24,
        &[c.init, c.running, c.irqs, c.irqsset, c.status, c.itsinit],
    );
}

fn store_frames(s: &mut [u8], f: Frames)
    requires { length s.old ≡ size }
    ensures { s.new ≡ put_at s.old 72 (bytes_all (bytes_of 8) (frames_words f)) }
{
    store_words(
        s,
        72,
        &[
            f.distributor.set,
            f.distributor.base,
            f.single.set,
            f.single.base,
            f.its.set,
            f.its.base,
        ],
    );
}

fn store_tables(s: &mut [u8], t: Tables)
    requires { length s.old ≡ size }
    ensures { s.new ≡ put_at s.old 120 (bytes_all (bytes_of 8) (tables_words t)) }
{
    let d = t.devices;
    let c = t.collections;
    store_words(s, 120, &[d.set, d.start, d.pages, c.set, c.start, c.pages]);
}

fn store_head(s: &mut [u8], r: Memory, c: Control, f: Frames, t: Tables, regions: u64, vcpus: u64)
    requires { length s.old ≡ size }
    ensures { s.new ≡ put_at s.old 0 (bytes_all (bytes_of 8) (head_words r c f t regions vcpus)) }
{
    store_words(s, 0, &[r.width, r.start, r.length]);
    store_control(s, c);
    store_frames(s, f);
    store_tables(s, t);
    store_words(s, 168, &[regions, vcpus]);
}

// The guest's bytes, over what the state held; what lies past the rows stays.
pub fn store_guest(s: &mut [u8], g: Guest)
    requires { (length s.old ≡ size) × Held g }
    ensures { s.new ≡ stored (view g) s.old }
{
    store_rows::<BankRows>(s, &g.shared.rows[..g.shared.count]);
    store_rows::<VcpuRows>(s, &g.vcpus.rows[..g.vcpus.count]);
    store_rows::<RegionRows>(s, &g.regions.rows[..g.regions.count]);
    store_head(
        s,
        g.memory,
        g.control,
        g.frames,
        g.tables,
        g.regions.count as u64,
        g.vcpus.count as u64,
    );
}
