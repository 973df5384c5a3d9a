// Where tables lie in memory: their areas, the bytes of an area, and whether an area overlaps one of them.
ghost use Rattle.std.specs.Prelude.{◌≡◌, true, map, ◌≤◌, ◌<◌, length, get_or};
ghost use Rattle.lists.specs.Rows.{all};
ghost use Rattle.areas.specs.Area.{overlaps, inside, strikes};
ghost use Rattle.rules.specs.Rules.{table_area, memory_area};
ghost use Rattle.mapping.specs.Mapped.{itt_area, no_device};
ghost use Rattle.mapping.specs.Commands.{table_areas};
ghost use Rattle.layout.specs.Layout.{decode};
ghost use Rattle.maplayout.specs.MapLayout.{decode_map, Counted};
ghost use Rattle.restore.specs.Begun.{Begun};
ghost use Rattle.restore.specs.Parts.{bytes_in, few_bits};

use areas::Area;
use guest::{Memory, Table};
use mapping::Device;

// The bytes of a page, in which tables are placed.
const PAGE: u64 = 4096;

// The bytes of an entry of an ITT.
const ENTRY: u64 = 8;

// No From: Area, Memory, Table and Device belong to other crates. crates/its has the same areas, and a restore does not build on it.
pub fn memory_area(m: Memory) -> Area
    ensures { result ≡ memory_area m }
{
    Area {
        start: m.start,
        size: m.length,
    }
}

pub fn table_area(t: Table) -> Area
    requires { t.pages ≤ 128 }
    ensures { result ≡ table_area t }
{
    Area {
        start: t.start,
        size: PAGE * t.pages,
    }
}

// An entry for each event ID.
pub fn itt_area(d: Device) -> Area
    requires { d.bits ≤ 16 }
    ensures { result ≡ itt_area d }
{
    Area {
        start: d.itt,
        size: ENTRY << d.bits,
    }
}

// The bytes of an area that is inside memory.
pub fn area_bytes(memory: Memory, a: Area, mem: &[u8]) -> &[u8]
    requires { (inside (memory_area memory) a ≡ true) × (length mem.now ≡ memory.length) }
    ensures { result.now ≡ bytes_in memory mem.now a }
{
    let from = (a.start - memory.start) as usize;
    let to = from + (a.size as usize);
    &mem[from..to]
}

// Whether an area overlaps the ITT of the device at `i`.
fn meets_itt(s: &[u8], a: Area, i: usize) -> bool
    requires { (Counted s.now) × (all few_bits (decode_map s.now).devices ≡ true) × (i < length (decode_map s.now).devices) }
    ensures { result ≡ overlaps a (itt_area (get_or (decode_map s.now).devices i no_device)) }
{
    areas::overlaps(a, itt_area(maplayout::device_at(s, i)))
}

// Whether an area overlaps a device's ITT.
fn strikes_itts(s: &[u8], a: Area) -> bool
    requires { (Counted s.now) × (all few_bits (decode_map s.now).devices ≡ true) }
    ensures { result ≡ strikes (map itt_area (decode_map s.now).devices) a }
{
    let n = maplayout::device_count(s);
    (0..n).any(|i| meets_itt(s, a, i))
}

// Whether an area overlaps a table in memory: the device table, the collection table or a device's ITT.
pub fn strikes_tables(s: &[u8], a: Area) -> bool
    requires { Begun s.now }
    ensures { result ≡ strikes (table_areas (decode s.now) (decode_map s.now).devices) a }
{
    let tables = layout::load_tables(s);
    if areas::overlaps(a, table_area(tables.devices)) {
        return true;
    }
    if areas::overlaps(a, table_area(tables.collections)) {
        return true;
    }
    strikes_itts(s, a)
}
