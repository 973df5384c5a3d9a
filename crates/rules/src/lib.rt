// The frames that stand, and what the code asks of a guest's tables.
#![tactic(auto)]

ghost use Rattle.std.specs.Prelude.{◌≡◌, true, ◌++◌, map, ◌+◌, ◌^◌, ◌≤◌, ◌<◌, leb, take, drop};
ghost use Rattle.std.specs.List.{list_any};
ghost use Rattle.lists.specs.Rows.{all};
ghost use Rattle.areas.specs.Area.{areas};
ghost use Rattle.guest.specs.Machine.{view, Held};
ghost use Rattle.rules.specs.Standing.{placed, run_size, region_area, small_count, Small, standing, others, total};
ghost use Rattle.rules.specs.Rules.{irqs_ok, unset_ok, has_affinity, taken};

use areas::{Area, Areas};
use guest::{Frame, Guest, Region, Regions, Vcpu, Vcpus};

// The size of the single run (§3.6).
pub fn run_size(g: Guest) -> u64
    requires { Held g }
    ensures { result ≡ run_size (view g) }
{
    if g.control.init == 1 {
        131072 * (g.vcpus.count as u64)
    } else {
        131072
    }
}

// A table with a frame's area at its end, if the frame's base is set.
fn with_frame(t: Areas, f: Frame, size: u64) -> Areas
    requires { t.count < 36 }
    ensures { (areas result ≡ areas t ++ placed f size) × (result.count ≤ t.count + 1) }
{
    if f.set == 1 {
        areas::with_area(
            t,
            Area {
                start: f.base,
                size,
            },
        )
    } else {
        t
    }
}

// The area of a region. A count below 4,096 keeps its size a number of 64 bits.
pub fn region_area(r: Region) -> Area
    requires { r.count < 4096 }
    ensures { result ≡ region_area r }
{
    Area {
        start: r.base,
        size: 131072 * r.count,
    }
}

// A table with the regions' areas at its end.
fn with_regions(t: Areas, r: Regions) -> Areas
    requires { (t.count + r.count < 36) × (r.count ≤ 32) × (all small_count (take r.count r.rows) ≡ true) }
    ensures { (areas result ≡ areas t ++ map region_area (take r.count r.rows)) × (result.count ≡ t.count + r.count) }
{
    let mut next = t;
    for row in &r.rows[..r.count] {
        next = areas::with_area(next, region_area(*row));
    }
    next
}

// The frames that stand: distributor first, then single run, regions and the ITS.
pub fn standing(g: Guest) -> Areas
    requires { Small g }
    ensures { (areas result ≡ standing (view g)) × (result.count ≤ 35) }
{
    let frames = g.frames;
    let distributor = frames.distributor;
    let single = frames.single;
    let its = frames.its;
    let regions = g.regions;
    let size = run_size(g);
    let first = with_frame(areas::none(), distributor, 65536);
    let second = with_frame(first, single, size);
    let third = with_regions(second, regions);
    with_frame(third, its, 131072)
}

// The frames that stand but for the single run.
pub fn others(g: Guest) -> Areas
    requires { Small g }
    ensures { (areas result ≡ others (view g)) × (result.count ≤ 34) }
{
    let frames = g.frames;
    let distributor = frames.distributor;
    let its = frames.its;
    let regions = g.regions;
    let first = with_frame(areas::none(), distributor, 65536);
    let second = with_regions(first, regions);
    with_frame(second, its, 131072)
}

// Whether the regions have room for n redistributors. What is left of n is kept, so that no sum can be too large.
pub fn covers(r: Regions, n: u64) -> bool
    requires { r.count ≤ 32 }
    ensures { result ≡ leb n (total (take r.count r.rows)) }
{
    let mut left = n;
    for row in &r.rows[..r.count] {
        if left <= row.count {
            return true;
        }
        left -= row.count;
    }
    left == 0
}

fn any_has(vcpus: &[Vcpu], affinity: u64) -> bool
    ensures { result ≡ list_any (has_affinity affinity) vcpus.now }
{
    vcpus.iter().any(|v| v.affinity == affinity)
}

// Whether a VCPU from the one at `from` on has the affinity.
pub fn taken_from(v: Vcpus, from: usize, affinity: u64) -> bool
    requires { (from ≤ v.count) × (v.count ≤ 64) }
    ensures { result ≡ taken (drop from (take v.count v.rows)) affinity }
{
    any_has(&v.rows[..v.count][from..], affinity)
}

// Whether a VCPU has the affinity.
pub fn taken(v: Vcpus, affinity: u64) -> bool
    requires { v.count ≤ 64 }
    ensures { result ≡ taken (take v.count v.rows) affinity }
{
    any_has(&v.rows[..v.count], affinity)
}

// Whether a number is an interrupt count (§3.14).
#[tactic(auto, unfolding(crate::specs::Rules::irqs_ok))]
pub fn irqs_ok(n: u64) -> bool
    ensures { result ≡ irqs_ok n }
{
    64 <= n && n <= 1024 && n % 32 == 0
}

// Whether a guest can have an interrupt count that was not set (§1.17).
pub fn unset_ok(n: u64) -> bool
    ensures { result ≡ unset_ok n }
{
    n == Guest::FRESH_IRQS || n == Guest::FORMER_IRQS
}

// The first address past the address space.
pub fn limit(width: u64) -> u64
    requires { width ≤ 52 }
    ensures { result ≡ 2 ^ width }
{
    1 << width
}
