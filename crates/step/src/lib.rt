// Definitions alone: what each exported call does to lent bytes (specs/Step.antt).
#![tactic(auto)]
