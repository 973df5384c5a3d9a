// Where the bank of an INTID is, and the bank that stands there.
ghost use Rattle.std.specs.Prelude.{◌≡◌, ◌<◌, ◌≤◌, length, position};
ghost use Rattle.guest.specs.Machine.{view, Held};
ghost use Rattle.irqs.specs.Spots.{
  shared_spot,
  spot_of,
  vcpu_at,
  with_vcpu,
  bank_of,
  with_bank,
  trigger_word,
  level_word,
  has_affinity,
  Stands,
  Shows,
};

use super::Spot;
use banks::trimmed;
use fields::field_put;
use guest::{Bank, Guest, Vcpu};

pub fn vcpu_count(g: Guest) -> usize
    requires { Held g }
    ensures { result ≡ length (view g).vcpus }
{
    g.vcpus.count
}

fn shared_count(g: Guest) -> usize
    requires { Held g }
    ensures { result ≡ length (view g).shared }
{
    g.shared.count
}

// The shared bank of INTIDs 32 n to 32 n + 31.
pub fn shared_spot(g: Guest, n: usize) -> Spot
    requires { Held g × (1 ≤ n) }
    ensures { result ≡ shared_spot n (view g) }
{
    let j = n - 1;
    if j < shared_count(g) {
        return Spot::Shared(j);
    }
    Spot::Absent
}

pub fn spot_of(g: Guest, vcpu: usize, intid: u64) -> Spot
    requires { Held g }
    ensures { result ≡ spot_of vcpu intid (view g) }
{
    if intid < 32 {
        return Spot::Own(vcpu);
    }
    shared_spot(g, (intid / 32) as usize)
}

pub fn vcpu_at(g: Guest, k: usize) -> Vcpu
    requires { Held g × (k < length (view g).vcpus) }
    ensures { result ≡ vcpu_at k (view g) }
{
    let vcpus = g.vcpus;
    vcpus.rows[k]
}

pub fn with_vcpu(g: Guest, k: usize, v: Vcpu) -> Guest
    requires { Held g × (k < length (view g).vcpus) }
    ensures { Shows result (with_vcpu k v (view g)) }
{
    let mut vcpus = g.vcpus;
    vcpus.rows[k] = v;
    let mut next = g;
    next.vcpus = vcpus;
    next
}

fn shared_at(g: Guest, j: usize) -> Bank
    requires { Held g × (j < length (view g).shared) }
    ensures { result ≡ bank_of (Spot.Shared j) (view g) }
{
    let shared = g.shared;
    shared.rows[j]
}

// No more bits are stored than the bank has interrupts (§4.17). Each call that changes a shared bank comes through here; setting the
// interrupt count, which makes new ones, does not.
fn with_shared(g: Guest, j: usize, b: Bank) -> Guest
    requires { Held g × (j < length (view g).shared) }
    ensures { Shows result (with_bank (Spot.Shared j) b (view g)) }
{
    let row = trimmed(b, guest::bank_bits(j));
    let mut shared = g.shared;
    shared.rows[j] = row;
    let mut next = g;
    next.shared = shared;
    next
}

// A bank that is absent reads as one with nothing in it.
pub fn bank_of(g: Guest, spot: Spot) -> Bank
    requires { Held g × Stands spot (view g) }
    ensures { result ≡ bank_of spot (view g) }
{
    match spot {
        Spot::Own(k) => {
            let v = vcpu_at(g, k);
            v.bank
        }
        Spot::Shared(j) => shared_at(g, j),
        Spot::Absent => guest::fresh_bank(),
    }
}

// A bank that is absent ignores what is written.
pub fn with_bank(g: Guest, spot: Spot, bank: Bank) -> Guest
    requires { Held g × Stands spot (view g) }
    ensures { Shows result (with_bank spot bank (view g)) }
{
    match spot {
        Spot::Own(k) => {
            let v = vcpu_at(g, k);
            let next = Vcpu {
                affinity: v.affinity,
                bank: bank,
                status: v.status,
            };
            with_vcpu(g, k, next)
        }
        Spot::Shared(j) => with_shared(g, j, bank),
        Spot::Absent => g,
    }
}

// In a VCPU's bank the SGIs, bits 15:0, stay edge whatever is written.
pub fn trigger_word(spot: Spot, word: u64) -> u64
    ensures { result ≡ trigger_word spot word }
{
    match spot {
        Spot::Own(_) => field_put(word, 0, 16, 0xFFFF),
        Spot::Shared(_) => word,
        Spot::Absent => word,
    }
}

// In a VCPU's bank the SGIs have no line: bits 15:0 stay 0.
pub fn level_word(spot: Spot, word: u64) -> u64
    ensures { result ≡ level_word spot word }
{
    match spot {
        Spot::Own(_) => field_put(word, 0, 16, 0),
        Spot::Shared(_) => word,
        Spot::Absent => word,
    }
}

// The VCPU of an affinity.
pub fn find_vcpu(vcpus: &[Vcpu], affinity: u64) -> Option<usize>
    ensures { result ≡ position (has_affinity affinity) vcpus.now }
{
    vcpus.iter().position(|v| v.affinity == affinity)
}
