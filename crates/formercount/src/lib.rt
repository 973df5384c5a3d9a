// Laws: a fresh guest once had 256 interrupts. A state that was sound by the rules that last held then is sound still, and every call on it but
// set-up does what it did.
#![tactic(auto)]
