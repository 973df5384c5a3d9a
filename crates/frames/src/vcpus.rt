// Adding VCPUs, the running mark, the interrupt count and ITS INIT.
ghost use Rattle.std.specs.Prelude.{true, ◌≡◌, ◌≤◌, take, replicate};
ghost use Rattle.guest.specs.Machine.{view, no_bank, shared_count};
ghost use Rattle.guest.specs.Returned.{Does, reading};
ghost use Rattle.rules.specs.Rules.{Kept, irqs_ok};
ghost use Rattle.frames.specs.Vcpus.{add_vcpu, set_running, set_irqs, get_irqs, its_init};

use answers::Errno;
use guest::{Banks, Guest};

// The interrupt count's attribute, a number of the C interface, and the bytes of its value.
const COUNT: u64 = 0;

const COUNT_BYTES: u64 = 4;

// The interrupts of a bank.
const BANK: u64 = 32;

// The VCPU stands at the end of the others (§3.1).
#[tactic(auto, unfolding(crate::specs::Vcpus::add_vcpu))]
pub fn add_vcpu(g: Guest, affinity: u64) -> Result<Guest, Errno>
    requires { Kept g }
    ensures { Does (view g) result (add_vcpu affinity (view g)) }
{
    if g.control.init == 1 {
        return Err(Errno::EBUSY);
    }
    if rules::taken(g.vcpus, affinity) {
        return Err(Errno::EINVAL);
    }
    let n = g.vcpus.count;
    if Guest::MAX_VCPUS <= n {
        return Err(Errno::ENOMEM);
    }
    let mut next = g;
    next.vcpus.rows[n] = guest::fresh_vcpu(affinity);
    next.vcpus.count = n + 1;
    Ok(next)
}

// Start (1) and stop (0) set one mark (§3.2), a number as the state holds it.
#[tactic(auto, unfolding(crate::specs::Vcpus::set_running))]
pub fn set_running(g: Guest, mark: u64) -> Result<Guest, Errno>
    requires { Kept g }
    ensures { Does (view g) result (set_running mark (view g)) }
{
    if g.control.init != 1 {
        return Err(Errno::ENXIO);
    }
    let mut next = g;
    next.control.running = mark;
    Ok(next)
}

// The shared banks of an interrupt count, fresh: one for each 32 interrupts but the first.
#[tactic(auto, using(crate::proofs::Rows::few_banks, crate::proofs::Rows::take_replicate))]
fn fresh_banks(irqs: u64) -> Banks
    requires { irqs_ok irqs ≡ true }
    ensures { (take result.count result.rows ≡ replicate (shared_count irqs) no_bank) × (result.count ≤ 31) }
{
    Banks {
        rows: [guest::fresh_bank(); 31],
        count: (irqs / BANK - 1) as usize,
    }
}

// The count is fixed once it was set by hand, and by INIT (§3.14).
#[tactic(auto, unfolding(crate::specs::Vcpus::set_irqs))]
pub fn set_irqs(g: Guest, attribute: u64, width: u64, value: u64) -> Result<Guest, Errno>
    requires { Kept g }
    ensures { Does (view g) result (set_irqs attribute width value (view g)) }
{
    if attribute != COUNT {
        return Err(Errno::ENXIO);
    }
    if width != COUNT_BYTES {
        return Err(Errno::EFAULT);
    }
    if !rules::irqs_ok(value) {
        return Err(Errno::EINVAL);
    }
    if g.control.irqsset == 1 || g.control.init == 1 {
        return Err(Errno::EBUSY);
    }
    let mut next = g;
    next.control.irqs = value;
    next.control.irqsset = 1;
    next.shared = fresh_banks(value);
    Ok(next)
}

#[tactic(auto, unfolding(crate::specs::Vcpus::get_irqs))]
pub fn get_irqs(g: Guest, attribute: u64, width: u64) -> Result<u64, Errno>
    requires { Kept g }
    ensures { reading result ≡ get_irqs attribute width (view g) }
{
    if attribute != COUNT {
        return Err(Errno::ENXIO);
    }
    if width != COUNT_BYTES {
        return Err(Errno::EFAULT);
    }
    Ok(g.control.irqs)
}

#[tactic(auto, unfolding(crate::specs::Vcpus::its_init))]
pub fn its_init(g: Guest) -> Result<Guest, Errno>
    requires { Kept g }
    ensures { Does (view g) result (its_init (view g)) }
{
    if g.control.init != 1 || g.frames.its.set != 1 {
        return Err(Errno::ENXIO);
    }
    let mut next = g;
    next.control.itsinit = 1;
    Ok(next)
}
