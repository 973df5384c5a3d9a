// Computed runs of mapping commands, save and restore: definitions and laws, no code.
#![tactic(auto)]
