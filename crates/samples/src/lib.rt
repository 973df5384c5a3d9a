// The samples of part 12: definitions and laws, no code.
#![tactic(auto)]
