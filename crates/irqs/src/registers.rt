// The registers of a frame: what an offset names, and reads and writes of what is named.
ghost use Rattle.std.specs.Prelude.{◌≡◌, ◌<◌, length};
ghost use Rattle.guest.specs.Machine.{view, Held};
ghost use Rattle.guest.specs.Returned.{fault};
ghost use Rattle.irqs.specs.Spots.{Shows};
ghost use Rattle.irqs.specs.Registers.{
  distributor_register,
  redistributor_register,
  access_fault,
  is_known,
  register_fault,
  Sharing,
  with_status,
  distributor_read,
  distributor_write,
  redistributor_read,
  redistributor_write,
};

use super::spots::{bank_of, shared_spot, vcpu_at, with_bank, with_vcpu};
use super::{Register, Spot};
use answers::Errno;
use banks::with_latch;
use guest::{Bank, Guest, Vcpu};

// The latch words start past 0x200, whose bank is each VCPU's own.
pub fn distributor_register(offset: u64) -> Register
    ensures is { result ≡ distributor_register offset }
    ensures sharing { Sharing result }
{
    if offset == 0x10 {
        return Register::Status;
    }
    if offset < 0x200 {
        return Register::Unknown;
    }
    if 0x300 <= offset {
        return Register::Unknown;
    }
    if offset % 4 != 0 {
        return Register::Unknown;
    }
    if offset <= 0x200 {
        return Register::Zero;
    }
    if 0x280 <= offset {
        return Register::Zero;
    }
    Register::Latch(((offset - 0x200) / 4) as usize)
}

pub fn redistributor_register(offset: u64) -> Register
    ensures { result ≡ redistributor_register offset }
{
    if offset == 0x10 {
        return Register::Status;
    }
    if offset == 0x10200 {
        return Register::Latch(0);
    }
    if offset == 0x10280 {
        return Register::Zero;
    }
    Register::Unknown
}

// Width, not ready, running, in this order.
fn access_fault(g: Guest, width: u64) -> Result<(), Errno>
    ensures { fault result ≡ access_fault width (view g) }
{
    if width != 4 {
        return Err(Errno::EFAULT);
    }
    if g.control.init != 1 {
        return Err(Errno::ENXIO);
    }
    if g.control.running == 1 {
        return Err(Errno::EBUSY);
    }
    Ok(())
}

fn is_known(r: Register) -> bool
    ensures { result ≡ is_known r }
{
    !matches!(r, Register::Unknown)
}

// An unknown name comes before every other fault.
pub fn register_fault(g: Guest, r: Register, width: u64) -> Result<(), Errno>
    ensures { fault result ≡ register_fault r width (view g) }
{
    if is_known(r) {
        return access_fault(g, width);
    }
    Err(Errno::ENXIO)
}

fn with_status(g: Guest, status: u64) -> Guest
    requires { Held g }
    ensures { Shows result (with_status status (view g)) }
{
    let mut control = g.control;
    control.status = status;
    let mut next = g;
    next.control = control;
    next
}

// What a latch register reads: the latch alone, without the line.
fn latch_word(b: Bank) -> u64
    ensures { result ≡ b.latch }
{
    b.latch
}

pub fn distributor_read(g: Guest, r: Register) -> u64
    requires { Held g × Sharing r }
    ensures { result ≡ distributor_read r (view g) }
{
    match r {
        Register::Latch(n) => latch_word(bank_of(g, shared_spot(g, n))),
        Register::Zero => 0,
        Register::Status => g.control.status,
        Register::Unknown => 0,
    }
}

pub fn distributor_write(g: Guest, r: Register, value: u64) -> Guest
    requires { Held g × Sharing r }
    ensures { Shows result (distributor_write r value (view g)) }
{
    match r {
        Register::Latch(n) => {
            let spot = shared_spot(g, n);
            let b = bank_of(g, spot);
            with_bank(g, spot, with_latch(b, value))
        }
        Register::Zero => g,
        Register::Status => with_status(g, value % 16),
        Register::Unknown => g,
    }
}

pub fn redistributor_read(g: Guest, r: Register, k: usize) -> u64
    requires { Held g × (k < length (view g).vcpus) }
    ensures { result ≡ redistributor_read r k (view g) }
{
    match r {
        Register::Latch(_) => latch_word(bank_of(g, Spot::Own(k))),
        Register::Zero => 0,
        Register::Status => {
            let v = vcpu_at(g, k);
            v.status
        }
        Register::Unknown => 0,
    }
}

pub fn redistributor_write(g: Guest, r: Register, k: usize, value: u64) -> Guest
    requires { Held g × (k < length (view g).vcpus) }
    ensures { Shows result (redistributor_write r k value (view g)) }
{
    match r {
        Register::Latch(_) => {
            let b = bank_of(g, Spot::Own(k));
            with_bank(g, Spot::Own(k), with_latch(b, value))
        }
        Register::Zero => g,
        Register::Status => {
            let v = vcpu_at(g, k);
            let bank = v.bank;
            let next = Vcpu {
                affinity: v.affinity,
                bank: bank,
                status: value % 16,
            };
            with_vcpu(g, k, next)
        }
        Register::Unknown => g,
    }
}
