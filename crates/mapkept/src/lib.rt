// Laws: the mapping commands keep the rules.
#![tactic(auto)]
