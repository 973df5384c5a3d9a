// The tables of the ITS as bytes in guest memory: definitions and their laws.
#![tactic(auto)]
