// The claims over every public call: definitions and theorems.
#![tactic(auto)]
