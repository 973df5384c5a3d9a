// The register groups: 1 (distributor, §4.11), 5 (redistributor, §4.12) and 7 (level words, §4.15), each set and get. A value is 4 bytes
// wide.
ghost use Rattle.std.specs.Prelude.{◌≡◌, IfOk};
ghost use Rattle.guest.specs.Machine.{view, Held};
ghost use Rattle.guest.specs.Returned.{fault, reading, Does};
ghost use Rattle.irqs.specs.Spots.{Names, Stands};
ghost use Rattle.irqs.specs.Registers.{
  offset_of,
  affinity_of,
  set_group1,
  get_group1,
  set_group5,
  get_group5,
  group7_fault,
  level_spot,
  set_group7,
  get_group7,
};

use super::Spot;
use super::registers::{
    distributor_read, distributor_register, distributor_write, redistributor_read,
    redistributor_register, redistributor_write, register_fault,
};
use super::spots::{bank_of, find_vcpu, level_word, shared_spot, with_bank};
use answers::Errno;
use banks::with_level;
use fields::field_get;
use guest::Guest;

fn offset_of(attribute: u64) -> u64
    ensures { result ≡ offset_of attribute }
{
    field_get(attribute, 0, 32)
}

// The VCPU of the affinity in bits 63:32.
fn named_vcpu(g: Guest, attribute: u64) -> Result<usize, Errno>
    requires { Held g }
    ensures { Names (affinity_of attribute) (view g) result }
{
    let vcpus = g.vcpus;
    find_vcpu(&vcpus.rows[..vcpus.count], field_get(attribute, 32, 32)).ok_or(Errno::EINVAL)
}

pub fn set_group1(g: Guest, attribute: u64, width: u64, value: u64) -> Result<Guest, Errno>
    requires { Held g }
    ensures { Does (view g) result (set_group1 attribute width value (view g)) }
{
    let register = distributor_register(offset_of(attribute));
    register_fault(g, register, width)?;
    Ok(distributor_write(g, register, value))
}

pub fn get_group1(g: Guest, attribute: u64, width: u64) -> Result<u64, Errno>
    requires { Held g }
    ensures { reading result ≡ get_group1 attribute width (view g) }
{
    let register = distributor_register(offset_of(attribute));
    register_fault(g, register, width)?;
    Ok(distributor_read(g, register))
}

// The affinity is looked up after the register's own faults.
pub fn set_group5(g: Guest, attribute: u64, width: u64, value: u64) -> Result<Guest, Errno>
    requires { Held g }
    ensures { Does (view g) result (set_group5 attribute width value (view g)) }
{
    let register = redistributor_register(offset_of(attribute));
    register_fault(g, register, width)?;
    let k = named_vcpu(g, attribute)?;
    Ok(redistributor_write(g, register, k, value))
}

pub fn get_group5(g: Guest, attribute: u64, width: u64) -> Result<u64, Errno>
    requires { Held g }
    ensures { reading result ≡ get_group5 attribute width (view g) }
{
    let register = redistributor_register(offset_of(attribute));
    register_fault(g, register, width)?;
    let k = named_vcpu(g, attribute)?;
    Ok(redistributor_read(g, register, k))
}

// The bank of a level word: info in bits 31:10, vINTID in bits 9:0. The affinity matters for vINTID 0 only.
fn level_spot(g: Guest, attribute: u64, width: u64) -> Result<Spot, Errno>
    requires { Held g }
    ensures stops { fault result ≡ group7_fault attribute width (view g) }
    ensures spot { IfOk result (λ s. (s ≡ level_spot attribute (view g)) × Stands s (view g)) }
{
    if width != 4 {
        return Err(Errno::EFAULT);
    }
    if g.control.init != 1 {
        return Err(Errno::ENXIO);
    }
    if field_get(attribute, 10, 22) != 0 {
        return Err(Errno::EINVAL);
    }
    let vintid = field_get(attribute, 0, 10);
    if vintid % 32 != 0 {
        return Err(Errno::EINVAL);
    }
    if vintid != 0 {
        return Ok(shared_spot(g, (vintid / 32) as usize));
    }
    Ok(Spot::Own(named_vcpu(g, attribute)?))
}

// The level word is stored as it is: a rise that it makes is no edge.
pub fn set_group7(g: Guest, attribute: u64, width: u64, value: u64) -> Result<Guest, Errno>
    requires { Held g }
    ensures { Does (view g) result (set_group7 attribute width value (view g)) }
{
    let spot = level_spot(g, attribute, width)?;
    let b = bank_of(g, spot);
    Ok(with_bank(g, spot, with_level(b, level_word(spot, value))))
}

pub fn get_group7(g: Guest, attribute: u64, width: u64) -> Result<u64, Errno>
    requires { Held g }
    ensures { reading result ≡ get_group7 attribute width (view g) }
{
    let b = bank_of(g, level_spot(g, attribute, width)?);
    Ok(b.level)
}
