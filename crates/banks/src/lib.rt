// One bank of 32 interrupts: interrupt i of it is bit i of each word.
// Four functions take a lent bank and change its latch or its level in place. The rest is by value, and changes a latch or a level
// through those four: so no caller holds a reference to a bank, and callers need no proof by hand.
#![tactic(auto)]

ghost use Rattle.std.specs.Prelude.{◌≡◌, ◌<◌, ◌≤◌};
ghost use Rattle.banks.specs.Bank.{
  with_latch,
  with_level,
  with_trigger,
  pending,
  raised,
  lowered,
  rises,
  lined,
  trimmed,
};

use fields::{field_get, field_put};
use guest::Bank;

// An edge interrupt is pending by its latch alone: what its line holds now is no news. The answer is 0 or 1, a number as in the definition and
// at the C interface (§4.4).
pub fn pending(b: Bank, i: u32) -> u64
    requires { i < 32 }
    ensures { result ≡ pending b i }
{
    let latch = field_get(b.latch, i, 1);
    if field_get(b.trigger, i, 1) == 1 {
        return latch;
    }
    if latch == 1 {
        return 1;
    }
    field_get(b.level, i, 1)
}

// A word of a lent bank, stored in place. The other two words stay.
pub fn put_latch(b: &mut Bank, word: u64)
    ensures { b.new ≡ with_latch word b.old }
{
    b.latch = word;
}

pub fn put_level(b: &mut Bank, word: u64)
    ensures { b.new ≡ with_level word b.old }
{
    b.level = word;
}

// The latch of interrupt i of a lent bank, raised or lowered in place.
pub fn raise(b: &mut Bank, i: u32)
    requires { i < 32 }
    ensures { b.new ≡ raised i b.old }
{
    b.latch = field_put(b.latch, i, 1, 1);
}

pub fn lower(b: &mut Bank, i: u32)
    requires { i < 32 }
    ensures { b.new ≡ lowered i b.old }
{
    b.latch = field_put(b.latch, i, 1, 0);
}

// The words of a bank, replaced one at a time.
pub fn with_latch(b: Bank, word: u64) -> Bank
    ensures { result ≡ with_latch word b }
{
    let mut next = b;
    put_latch(&mut next, word);
    next
}

pub fn with_level(b: Bank, word: u64) -> Bank
    ensures { result ≡ with_level word b }
{
    let mut next = b;
    put_level(&mut next, word);
    next
}

pub fn with_trigger(b: Bank, word: u64) -> Bank
    ensures { result ≡ with_trigger word b }
{
    Bank {
        latch: b.latch,
        level: b.level,
        trigger: word,
    }
}

// The bank with the latch of interrupt i raised or lowered.
pub fn raised(b: Bank, i: u32) -> Bank
    requires { i < 32 }
    ensures { result ≡ raised i b }
{
    let mut next = b;
    raise(&mut next, i);
    next
}

pub fn lowered(b: Bank, i: u32) -> Bank
    requires { i < 32 }
    ensures { result ≡ lowered i b }
{
    let mut next = b;
    lower(&mut next, i);
    next
}

// Whether a line that goes to level latches: a rise from the stored level, of an edge interrupt.
fn rises(b: Bank, i: u32, level: u64) -> bool
    requires { i < 32 }
    ensures { result ≡ rises i level b }
{
    if field_get(b.trigger, i, 1) != 1 {
        return false;
    }
    if field_get(b.level, i, 1) != 0 {
        return false;
    }
    level == 1
}

// The new level is stored, and a rise is latched by what the bank held before.
pub fn lined(b: Bank, i: u32, level: u64) -> Bank
    requires { (i < 32) × (level ≤ 1) }
    ensures { result ≡ lined i level b }
{
    let word = field_put(b.level, i, 1, level);
    if rises(b, i, level) {
        return with_level(raised(b, i), word);
    }
    with_level(b, word)
}

// What a bank of so many interrupts stores of its words (§4.17): the bits past them are 0 whatever was written there.
pub fn trimmed(b: Bank, bits: u32) -> Bank
    requires { (1 ≤ bits) × (bits ≤ 32) }
    ensures { result ≡ trimmed bits b }
{
    Bank {
        latch: field_get(b.latch, 0, bits),
        level: field_get(b.level, 0, bits),
        trigger: field_get(b.trigger, 0, bits),
    }
}
