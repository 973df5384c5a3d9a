// Computed runs: each fault of a restore by its code.
#![tactic(auto)]
