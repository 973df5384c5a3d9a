// Laws: what a save leaves in memory describes the mapping (§10.8 rests on it).
#![tactic(auto)]
