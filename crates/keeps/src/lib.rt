// Whether the bytes of a state hold a guest that keeps the rules: the test that they pass before any call goes on. Regions and VCPUs
// are read where they lie, one row at a time, so that no table is ever copied. Each test is lent the bytes with the clause `Counted`, as
// the readers of crate layout ask it of the bytes that a C caller lends: no struct holds them.
#![tactic(auto)]

mod banks;

ghost use Rattle.std.specs.Prelude.{◌≡◌, true, map, ◌<◌, ◌≤◌, leb, eqb, length, get_or, drop};
ghost use Rattle.lists.specs.Rows.{all, choose};
ghost use Rattle.areas.specs.Area.{strikes, apart};
ghost use Rattle.guest.specs.Machine.{is_set, no_region};
ghost use Rattle.layout.specs.Layout.{decode, Counted};
ghost use Rattle.rules.specs.Standing.{run_size, region_area, small_count, standing, total};
ghost use Rattle.rules.specs.Rules.{
  memory_area,
  memory_ok,
  control_ok,
  frame_ok,
  region_ok,
  limit_of,
  frames_ok,
  init_ok,
  taken,
  distinct,
  vcpu_ok,
  vcpus_ok,
  table_area,
  table_ok,
  tables_ok,
  rules,
};

use areas::Area;
use guest::{Control, Frame, Frames, Memory, Region, Table, Vcpu};

// The run of guest memory (§1.4).
fn memory_area(m: Memory) -> Area
    ensures { result ≡ memory_area m }
{
    Area {
        start: m.start,
        size: m.length,
    }
}

// The address width and the run of guest memory (§1.4).
#[tactic(auto, unfolding(rules::specs::Rules::memory_ok, areas::specs::Area::ends_by))]
pub fn memory_ok(m: Memory) -> bool
    ensures { result ≡ memory_ok m }
{
    36 <= m.width
        && m.width <= 52
        && m.start % 4096 == 0
        && m.length % 4096 == 0
        && 4096 <= m.length
        && m.length <= 1073741824
        && areas::ends_by(rules::limit(m.width), memory_area(m))
}

// The marks, the interrupt count, which is one of two unless it was set (§1.17), and the distributor's STATUSR (§1.9).
#[tactic(auto, unfolding(rules::specs::Rules::control_ok))]
fn control_ok(m: Control) -> bool
    ensures { result ≡ control_ok m }
{
    m.init <= 1
        && m.running <= m.init
        && m.itsinit <= m.init
        && m.irqsset <= 1
        && rules::irqs_ok(m.irqs)
        && m.status < 16
        && (m.irqsset == 1 || rules::unset_ok(m.irqs))
}

// A frame (§1.10); one whose base is not set is all 0 (§1.7).
#[tactic(auto, unfolding(rules::specs::Rules::frame_ok))]
fn frame_ok(end: u64, size: u64, f: Frame) -> bool
    ensures { result ≡ frame_ok end size f }
{
    if f.set == 1 {
        f.base % 65536 == 0
            && areas::ends_by(
                end,
                Area {
                    start: f.base,
                    size,
                },
            )
    } else {
        f.set == 0 && f.base == 0
    }
}

// A region (§1.10). The count is tested before the size is made of it.
#[tactic(auto, unfolding(rules::specs::Rules::region_ok))]
fn region_ok(end: u64, r: Region) -> bool
    ensures { result ≡ region_ok end r }
{
    r.base % 65536 == 0
        && 1 <= r.count
        && r.count < 4096
        && areas::ends_by(end, rules::region_area(r))
}

fn regions_ok(s: &[u8], end: u64) -> bool
    requires { Counted s.now }
    ensures { result ≡ all (region_ok end) (decode s.now).regions }
{
    (0..layout::region_count(s)).all(|i| region_ok(end, layout::region_at(s, i)))
}

// No region stands beside the single run.
fn either_ok(single: Frame, regions: usize) -> bool
    ensures { result ≡ choose (is_set single) (eqb regions 0) true }
{
    single.set != 1 || regions == 0
}

// The size of the single run (§3.6), as `rules::run_size` has it of a guest: here no guest is loaded.
#[tactic(auto, using(layout::proofs::InPlace::vcpus_few))]
fn run_size(s: &[u8], init: u64) -> u64
    requires counted { Counted s.now }
    requires init_value { init ≡ (decode s.now).control.init }
    ensures { result ≡ run_size (decode s.now) }
{
    if init == 1 {
        131072 * (layout::vcpu_count(s) as u64)
    } else {
        131072
    }
}

// The area of a frame. One whose base is not set has no byte, and so overlaps nothing.
fn frame_area(f: Frame, size: u64) -> Area
    ensures { result ≡ record { start = f.base; size = choose (is_set f) size 0 } }
{
    Area {
        start: f.base,
        size: if f.set == 1 { size } else { 0 },
    }
}

// The area of the region at an index. A count below 4,096 keeps its size a number of 64 bits.
fn area_at(s: &[u8], i: usize) -> Area
    requires counted { Counted s.now × (all small_count (decode s.now).regions ≡ true) }
    requires in_bounds { i < length (decode s.now).regions }
    ensures { result ≡ region_area (get_or (decode s.now).regions i no_region) }
{
    rules::region_area(layout::region_at(s, i))
}

// Whether an area overlaps a region from the one at `from` on.
fn region_struck(s: &[u8], from: usize, a: Area) -> bool
    requires counted { Counted s.now × (all small_count (decode s.now).regions ≡ true) }
    requires from_in_bounds { from ≤ length (decode s.now).regions }
    ensures { result ≡ strikes (drop from (map region_area (decode s.now).regions)) a }
{
    (from..layout::region_count(s)).any(|i| areas::overlaps(a, area_at(s, i)))
}

// Whether no two regions overlap.
fn regions_apart(s: &[u8]) -> bool
    requires { Counted s.now × (all small_count (decode s.now).regions ≡ true) }
    ensures { result ≡ apart (map region_area (decode s.now).regions) }
{
    (0..layout::region_count(s)).all(|i| !region_struck(s, i + 1, area_at(s, i)))
}

// Whether no two frames that stand overlap: each pair of the three that have one base, each of these with the regions, and the
// regions with each other.
#[tactic(auto, using(crate::proofs::Apart::tests))]
fn frames_apart(s: &[u8], size: u64, f: Frames) -> bool
    requires counted { Counted s.now × (all small_count (decode s.now).regions ≡ true) }
    requires size_value { (size ≡ run_size (decode s.now)) × (f ≡ (decode s.now).frames) }
    ensures { result ≡ apart (standing (decode s.now)) }
{
    let distributor = frame_area(f.distributor, 65536);
    let single = frame_area(f.single, size);
    let its = frame_area(f.its, 131072);
    !areas::overlaps(its, distributor)
        && !areas::overlaps(its, single)
        && !region_struck(s, 0, its)
        && !areas::overlaps(distributor, single)
        && !region_struck(s, 0, distributor)
        && !region_struck(s, 0, single)
        && regions_apart(s)
}

// The frames (§1.10). That they stand apart is asked last: only then is every size known to be a number of 64 bits.
#[tactic(auto, using(layout::proofs::InPlace::regions_few, rules::proofs::Facts::regions_small), unfolding(rules::specs::Rules::frames_ok))]
fn frames_ok(s: &[u8], end: u64, init: u64, f: Frames) -> bool
    requires counted { Counted s.now }
    requires end_value { (end ≡ limit_of (decode s.now)) × (init ≡ (decode s.now).control.init) × (f ≡ (decode s.now).frames) }
    ensures { result ≡ frames_ok (decode s.now) }
{
    let size = run_size(s, init);
    frame_ok(end, 65536, f.distributor)
        && frame_ok(end, size, f.single)
        && frame_ok(end, 131072, f.its)
        && regions_ok(s, end)
        && either_ok(f.single, layout::region_count(s))
        && frames_apart(s, size, f)
}

// Whether the regions have room for n redistributors. What is left of n is kept, so that no sum can be too large. `rules::covers` asks
// the same of a guest's array: here the rows are read where they lie, and no array is filled.
fn covers(s: &[u8], n: u64) -> bool
    requires { Counted s.now }
    ensures { result ≡ leb n (total (decode s.now).regions) }
{
    let mut left = n;
    for i in 0..layout::region_count(s) {
        let row = layout::region_at(s, i);
        if left <= row.count {
            return true;
        }
        left -= row.count;
    }
    left == 0
}

// What must stand after VGIC INIT (§1.11).
#[tactic(auto, unfolding(rules::specs::Rules::init_ok))]
fn init_ok(s: &[u8], init: u64, f: Frames) -> bool
    requires counted { Counted s.now }
    requires init_value { (init ≡ (decode s.now).control.init) × (f ≡ (decode s.now).frames) }
    ensures { result ≡ init_ok (decode s.now) }
{
    let vcpus = layout::vcpu_count(s);
    init != 1
        || (1 <= vcpus && f.distributor.set == 1 && (f.single.set == 1 || covers(s, vcpus as u64)))
}

// SGIs, [15:0] of the VCPU's bank, are edge with level 0 (§1.12); STATUSR is below 16 (§1.9).
#[tactic(auto, unfolding(rules::specs::Rules::vcpu_ok))]
fn vcpu_ok(v: Vcpu) -> bool
    ensures { result ≡ vcpu_ok v }
{
    fields::field_get(v.bank.trigger, 0, 16) == 65535
        && fields::field_get(v.bank.level, 0, 16) == 0
        && v.status < 16
}

fn each_vcpu_ok(s: &[u8]) -> bool
    requires { Counted s.now }
    ensures { result ≡ all vcpu_ok (decode s.now).vcpus }
{
    (0..layout::vcpu_count(s)).all(|i| vcpu_ok(layout::vcpu_at(s, i)))
}

// Whether a VCPU from the one at `from` on has the affinity: `rules::taken_from` of rows that are read where they lie.
fn taken_from(s: &[u8], from: usize, affinity: u64) -> bool
    requires counted { Counted s.now }
    requires from_in_bounds { from ≤ length (decode s.now).vcpus }
    ensures { result ≡ taken (drop from (decode s.now).vcpus) affinity }
{
    (from..layout::vcpu_count(s)).any(|i| layout::vcpu_at(s, i).affinity == affinity)
}

// No affinity occurs twice (§1.12).
fn distinct_ok(s: &[u8]) -> bool
    requires { Counted s.now }
    ensures { result ≡ distinct (decode s.now).vcpus }
{
    (0..layout::vcpu_count(s)).all(|i| !taken_from(s, i + 1, layout::vcpu_at(s, i).affinity))
}

#[tactic(auto, using(layout::proofs::InPlace::vcpus_few), unfolding(rules::specs::Rules::vcpus_ok))]
fn vcpus_ok(s: &[u8]) -> bool
    requires { Counted s.now }
    ensures { result ≡ vcpus_ok (decode s.now).vcpus }
{
    each_vcpu_ok(s) && distinct_ok(s)
}

// The bytes of a table (§5.4).
fn table_area(t: Table) -> Area
    requires { t.pages ≤ 128 }
    ensures { result ≡ table_area t }
{
    Area {
        start: t.start,
        size: 4096 * t.pages,
    }
}

// A table (§1.13); one that is not placed is all 0 (§1.7).
#[tactic(auto, unfolding(rules::specs::Rules::table_ok))]
fn table_ok(m: Memory, t: Table) -> bool
    ensures { result ≡ table_ok m t }
{
    if t.set == 1 {
        t.start % 4096 == 0
            && 1 <= t.pages
            && t.pages <= 128
            && areas::inside(memory_area(m), table_area(t))
    } else {
        t.set == 0 && t.start == 0 && t.pages == 0
    }
}

// Both tables (§1.13).
#[tactic(auto, using(crate::proofs::Verdicts::table_small), unfolding(rules::specs::Rules::tables_ok, layout::specs::Layout::decode))]
fn tables_ok(s: &[u8], m: Memory, itsinit: u64) -> bool
    requires counted { Counted s.now }
    requires m_value { (m ≡ (decode s.now).memory) × (itsinit ≡ (decode s.now).control.itsinit) }
    ensures { result ≡ tables_ok (decode s.now) }
{
    let tables = layout::load_tables(s);
    table_ok(m, tables.devices)
        && table_ok(m, tables.collections)
        && tables.devices.set == tables.collections.set
        && tables.devices.set <= itsinit
        && !areas::overlaps(table_area(tables.devices), table_area(tables.collections))
}

// Whether the bytes hold a guest that keeps every rule. That it has as many shared banks as the interrupt count says is no test:
// bytes are read as having that many.
#[tactic(auto, using(crate::proofs::Verdicts::memory_narrow, crate::proofs::Verdicts::rules_are, crate::proofs::Verdicts::memory_is, crate::proofs::Verdicts::control_is, crate::proofs::Verdicts::frames_is))]
pub fn keeps_rules(s: &[u8]) -> bool
    requires { Counted s.now }
    ensures { result ≡ rules (decode s.now) }
{
    let memory = layout::load_memory(s);
    let control = layout::load_control(s);
    let frames = layout::load_frames(s);
    memory_ok(memory)
        && control_ok(control)
        && frames_ok(s, rules::limit(memory.width), control.init, frames)
        && init_ok(s, control.init, frames)
        && vcpus_ok(s)
        && banks::last_ok(s)
        && banks::untouched(s, control.init, control.status)
        && control.itsinit <= frames.its.set
        && tables_ok(s, memory, control.itsinit)
}
