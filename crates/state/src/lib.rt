// What makes a state of the bytes that C lends: definitions and laws, no code.
#![tactic(auto)]
