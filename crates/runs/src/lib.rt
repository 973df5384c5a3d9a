// Computed runs of the guest's calls: definitions and laws, no code.
#![tactic(auto)]
