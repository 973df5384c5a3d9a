// Attributes by group: groups and attributes are numbers of the C interface.
ghost use Rattle.std.specs.Prelude.{◌≡◌};
ghost use Rattle.guest.specs.Machine.{view};
ghost use Rattle.guest.specs.Returned.{Does, reading};
ghost use Rattle.rules.specs.Rules.{Kept};
ghost use Rattle.calls.specs.Groups.{set_group4, vgic_set, vgic_get, set_its_group4, its_set, its_get};

use answers::Errno;
use guest::Guest;

#[tactic(auto, unfolding(crate::specs::Groups::set_group4))]
fn set_group4(g: Guest, attribute: u64, width: u64) -> Result<Guest, Errno>
    requires { Kept g }
    ensures { Does (view g) result (set_group4 attribute width (view g)) }
{
    if attribute != 0 {
        return Err(Errno::ENXIO);
    }
    if width != 0 {
        return Err(Errno::EFAULT);
    }
    frames::init::vgic_init(g)
}

#[tactic(auto, unfolding(crate::specs::Groups::vgic_set))]
pub fn vgic_set(
    g: Guest,
    group: u64,
    attribute: u64,
    width: u64,
    value: u64,
) -> Result<Guest, Errno>
    requires { Kept g }
    ensures { Does (view g) result (vgic_set group attribute width value (view g)) }
{
    match group {
        0 => frames::bases::set_group0(g, attribute, width, value),
        1 => irqs::groups::set_group1(g, attribute, width, value),
        3 => frames::vcpus::set_irqs(g, attribute, width, value),
        4 => set_group4(g, attribute, width),
        5 => irqs::groups::set_group5(g, attribute, width, value),
        7 => irqs::groups::set_group7(g, attribute, width, value),
        _ => Err(Errno::ENXIO),
    }
}

#[tactic(auto, unfolding(crate::specs::Groups::vgic_get))]
pub fn vgic_get(g: Guest, group: u64, attribute: u64, width: u64, value: u64) -> Result<u64, Errno>
    requires { Kept g }
    ensures { reading result ≡ vgic_get group attribute width value (view g) }
{
    match group {
        0 => frames::bases::get_group0(g, attribute, width, value),
        1 => irqs::groups::get_group1(g, attribute, width),
        3 => frames::vcpus::get_irqs(g, attribute, width),
        5 => irqs::groups::get_group5(g, attribute, width),
        7 => irqs::groups::get_group7(g, attribute, width),
        _ => Err(Errno::ENXIO),
    }
}

#[tactic(auto, unfolding(crate::specs::Groups::set_its_group4))]
fn set_its_group4(g: Guest, attribute: u64, width: u64) -> Result<Guest, Errno>
    requires { Kept g }
    ensures { Does (view g) result (set_its_group4 attribute width (view g)) }
{
    match attribute {
        0 => {
            if width != 0 {
                return Err(Errno::EFAULT);
            }
            frames::vcpus::its_init(g)
        }
        1 | 2 => Err(Errno::EFAULT),
        _ => Err(Errno::ENXIO),
    }
}

#[tactic(auto, unfolding(crate::specs::Groups::its_set))]
pub fn its_set(g: Guest, group: u64, attribute: u64, width: u64, value: u64) -> Result<Guest, Errno>
    requires { Kept g }
    ensures { Does (view g) result (its_set group attribute width value (view g)) }
{
    match group {
        0 => frames::bases::set_its_group0(g, attribute, width, value),
        4 => set_its_group4(g, attribute, width),
        _ => Err(Errno::ENXIO),
    }
}

#[tactic(auto, unfolding(crate::specs::Groups::its_get))]
pub fn its_get(g: Guest, group: u64, attribute: u64, width: u64) -> Result<u64, Errno>
    requires { Kept g }
    ensures { reading result ≡ its_get group attribute width (view g) }
{
    if group == 0 {
        return frames::bases::get_its_group0(g, attribute, width);
    }
    Err(Errno::ENXIO)
}
