// Laws: the calls on interrupts keep the rules.
#![tactic(auto)]
