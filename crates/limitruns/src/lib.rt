// Computed runs up to the limits of the mapping: definitions and laws, no code.
#![tactic(auto)]
