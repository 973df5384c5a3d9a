// Computed runs of the calls on an XICS: definitions and laws, no code.
#![tactic(auto)]
