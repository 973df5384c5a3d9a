// The rules of the banks: the last one holds nothing past its interrupts (§1.15), and before VGIC INIT nothing was written (§1.16).
ghost use Rattle.std.specs.Prelude.{◌≡◌, ◌≤◌};
ghost use Rattle.lists.specs.Rows.{all};
ghost use Rattle.layout.specs.Layout.{decode, Counted};
ghost use Rattle.rules.specs.Rules.{bank_fits, last_ok, same_bank, fresh_bank, fresh_vcpu, untouched};

use guest::{Bank, Vcpu};

// Each word of the bank has at most so many bits.
#[tactic(auto, unfolding(rules::specs::Rules::bank_fits))]
fn bank_fits(b: Bank, bits: u64) -> bool
    requires { bits ≤ 52 }
    ensures { result ≡ bank_fits bits b }
{
    let end = rules::limit(bits);
    b.latch < end && b.level < end && b.trigger < end
}

// Row 30 is there with 1,024 interrupts alone.
#[tactic(auto, using(guest::proofs::Anchors::bits_most), unfolding(rules::specs::Rules::last_ok))]
pub fn last_ok(s: &[u8]) -> bool
    requires { Counted s.now }
    ensures { result ≡ last_ok (decode s.now).shared }
{
    layout::bank_count(s) <= 30 || bank_fits(layout::bank_at(s, 30), guest::bank_bits(30) as u64)
}

// A fresh bank has this trigger word and nothing else (§4.3).
fn is_fresh(b: Bank, trigger: u64) -> bool
    ensures { result ≡ same_bank b (record { latch = 0; level = 0; trigger = trigger }) }
{
    b.latch == 0 && b.level == 0 && b.trigger == trigger
}

#[tactic(auto, unfolding(rules::specs::Rules::fresh_bank))]
fn fresh_bank(b: Bank) -> bool
    ensures { result ≡ fresh_bank b }
{
    is_fresh(b, 0)
}

// The SGIs of a fresh VCPU are edge.
#[tactic(auto, unfolding(rules::specs::Rules::fresh_vcpu))]
fn fresh_vcpu(v: Vcpu) -> bool
    ensures { result ≡ fresh_vcpu v }
{
    v.status == 0 && is_fresh(v.bank, 0xFFFF)
}

fn each_vcpu_fresh(s: &[u8]) -> bool
    requires { Counted s.now }
    ensures { result ≡ all fresh_vcpu (decode s.now).vcpus }
{
    (0..layout::vcpu_count(s)).all(|i| fresh_vcpu(layout::vcpu_at(s, i)))
}

fn each_bank_fresh(s: &[u8]) -> bool
    requires { Counted s.now }
    ensures { result ≡ all fresh_bank (decode s.now).shared }
{
    (0..layout::bank_count(s)).all(|i| fresh_bank(layout::bank_at(s, i)))
}

// After INIT nothing is asked.
#[tactic(auto, unfolding(rules::specs::Rules::untouched))]
pub fn untouched(s: &[u8], init: u64, status: u64) -> bool
    requires counted { Counted s.now }
    requires init_value { (init ≡ (decode s.now).control.init) × (status ≡ (decode s.now).control.status) }
    ensures { result ≡ untouched (decode s.now) }
{
    init == 1 || (status == 0 && each_vcpu_fresh(s) && each_bank_fresh(s))
}
