// INIT, and where each VCPU's redistributor frame lies.
ghost use Rattle.std.specs.Prelude.{◌≡◌};
ghost use Rattle.guest.specs.Machine.{view};
ghost use Rattle.guest.specs.Returned.{Does, reading};
ghost use Rattle.rules.specs.Rules.{Kept};
ghost use Rattle.frames.specs.Init.{run_fits, has_places, vgic_init, locate, redist_base};

use crate::bases::REDISTRIBUTOR_BYTES;
use answers::Errno;
use areas::Area;
use guest::Guest;

// Whether the single run ends in the address space and overlaps no other frame.
#[tactic(auto, using(crate::proofs::Known::narrow, rules::proofs::Facts::kept_small))]
fn run_fits(g: Guest, run: Area) -> bool
    requires { Kept g }
    ensures { result ≡ run_fits run (view g) }
{
    areas::ends_by(rules::limit(g.memory.width), run) && !areas::strikes(rules::others(g), run)
}

// Whether every VCPU has a redistributor place: in the whole single run, or in the regions.
#[tactic(auto, unfolding(crate::specs::Init::has_places))]
fn has_places(g: Guest) -> bool
    requires { Kept g }
    ensures { result ≡ has_places (view g) }
{
    let n = g.vcpus.count as u64;
    if g.frames.single.set == 1 {
        let run = Area {
            start: g.frames.single.base,
            size: REDISTRIBUTOR_BYTES * n,
        };
        return run_fits(g, run);
    }
    rules::covers(g.regions, n)
}

// Done earlier is a success (§3.11). After it every VCPU has its redistributor's frame.
#[tactic(auto, unfolding(crate::specs::Init::vgic_init))]
pub fn vgic_init(g: Guest) -> Result<Guest, Errno>
    requires { Kept g }
    ensures { Does (view g) result (vgic_init (view g)) }
{
    if g.control.init == 1 {
        return Ok(g);
    }
    if g.vcpus.count == 0 {
        return Err(Errno::ENODEV);
    }
    if g.frames.distributor.set != 1 || !has_places(g) {
        return Err(Errno::ENXIO);
    }
    let mut next = g;
    next.control.init = 1;
    Ok(next)
}

// The frame of VCPU k (§3.12): left is k without the counts of the regions before, and the first region whose count is above it has it.
#[tactic(auto, using(crate::proofs::Known::region_end), unfolding(crate::specs::Init::locate))]
fn locate(g: Guest, k: u64) -> u64
    requires { Kept g }
    ensures { result ≡ locate (view g).regions k }
{
    let mut left = k;
    for r in &g.regions.rows[..g.regions.count] {
        if left < r.count {
            return r.base + REDISTRIBUTOR_BYTES * left;
        }
        left -= r.count;
    }
    0
}

// Where the redistributor of VCPU k lies: the single run is one region.
#[tactic(auto, unfolding(crate::specs::Init::redist_base))]
pub fn redist_base(g: Guest, k: u64) -> Result<u64, Errno>
    requires { Kept g }
    ensures { reading result ≡ redist_base k (view g) }
{
    if g.control.init != 1 {
        return Err(Errno::ENXIO);
    }
    let n = g.vcpus.count as u64;
    if n <= k {
        return Err(Errno::EINVAL);
    }
    if g.frames.single.set == 1 {
        return Ok(g.frames.single.base + REDISTRIBUTOR_BYTES * k);
    }
    Ok(locate(g, k))
}
