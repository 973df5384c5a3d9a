// Laws: why a restore is refused, over lent bytes (§13.10).
#![tactic(auto)]
