// Laws: a restore reads exactly what the bytes describe (§10.6).
#![tactic(auto)]
