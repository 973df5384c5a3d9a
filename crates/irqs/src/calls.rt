// The calls that name a VCPU and an INTID: any number may be named.
ghost use Rattle.std.specs.Prelude.{◌≡◌, ◌%◌};
ghost use Rattle.guest.specs.Machine.{view, Held};
ghost use Rattle.guest.specs.Returned.{fault, reading, Does};
ghost use Rattle.irqs.specs.Spots.{spot_of, Stands};
ghost use Rattle.irqs.specs.Irqs.{irq_fault, irq_pending, irq_set, irq_clear, irq_line, irq_trigger};

use super::Spot;
use super::spots::{bank_of, spot_of, trigger_word, vcpu_count, with_bank};
use answers::Errno;
use banks::{lined, lowered, pending, raised, with_trigger};
use guest::Guest;

// What stops a call (§4.8). A VCPU that is not there is a fault at every INTID.
fn irq_fault(g: Guest, vcpu: u64, intid: u64) -> Result<(), Errno>
    requires { Held g }
    ensures { fault result ≡ irq_fault vcpu intid (view g) }
{
    if g.control.init != 1 {
        return Err(Errno::ENXIO);
    }
    let k = vcpu as usize;
    if vcpu_count(g) <= k {
        return Err(Errno::EINVAL);
    }
    if 1023 < intid {
        return Err(Errno::EINVAL);
    }
    Ok(())
}

// The bit of an INTID in its bank.
fn bit_of(intid: u64) -> u32
    ensures { result ≡ intid % 32 }
{
    (intid % 32) as u32
}

// The spot of an INTID that was found good.
fn good_spot(g: Guest, vcpu: u64, intid: u64) -> Spot
    requires { Held g × (irq_fault vcpu intid (view g) ≡ 0) }
    ensures is { result ≡ spot_of vcpu intid (view g) }
    ensures stands { Stands result (view g) }
{
    spot_of(g, vcpu as usize, intid)
}

pub fn irq_pending(g: Guest, vcpu: u64, intid: u64) -> Result<u64, Errno>
    requires { Held g }
    ensures { reading result ≡ irq_pending vcpu intid (view g) }
{
    irq_fault(g, vcpu, intid)?;
    let b = bank_of(g, good_spot(g, vcpu, intid));
    Ok(pending(b, bit_of(intid)))
}

// The guest raises an INTID's latch.
pub fn irq_set(g: Guest, vcpu: u64, intid: u64) -> Result<Guest, Errno>
    requires { Held g }
    ensures { Does (view g) result (irq_set vcpu intid (view g)) }
{
    irq_fault(g, vcpu, intid)?;
    let spot = good_spot(g, vcpu, intid);
    let b = bank_of(g, spot);
    Ok(with_bank(g, spot, raised(b, bit_of(intid))))
}

// The guest, or an activation, lowers an INTID's latch.
pub fn irq_clear(g: Guest, vcpu: u64, intid: u64) -> Result<Guest, Errno>
    requires { Held g }
    ensures { Does (view g) result (irq_clear vcpu intid (view g)) }
{
    irq_fault(g, vcpu, intid)?;
    let spot = good_spot(g, vcpu, intid);
    let b = bank_of(g, spot);
    Ok(with_bank(g, spot, lowered(b, bit_of(intid))))
}

// A device's line goes to a level. An SGI has no line: nothing is stored, and a level above 1 is a fault for it too.
pub fn irq_line(g: Guest, vcpu: u64, intid: u64, level: u64) -> Result<Guest, Errno>
    requires { Held g }
    ensures { Does (view g) result (irq_line vcpu intid level (view g)) }
{
    irq_fault(g, vcpu, intid)?;
    if 1 < level {
        return Err(Errno::EINVAL);
    }
    if intid < 16 {
        return Ok(g);
    }
    let spot = good_spot(g, vcpu, intid);
    let b = bank_of(g, spot);
    Ok(with_bank(g, spot, lined(b, bit_of(intid), level)))
}

// The trigger word of the INTID's bank is stored, but for what is no interrupt's; no latch and no level changes.
pub fn irq_trigger(g: Guest, vcpu: u64, intid: u64, word: u64) -> Result<Guest, Errno>
    requires { Held g }
    ensures { Does (view g) result (irq_trigger vcpu intid word (view g)) }
{
    irq_fault(g, vcpu, intid)?;
    let spot = good_spot(g, vcpu, intid);
    let b = bank_of(g, spot);
    Ok(with_bank(g, spot, with_trigger(b, trigger_word(spot, word))))
}
