// Laws: which faults are there in the tables, and which of them a restore meets first (part 13).
#![tactic(auto)]
