// Every call on VCPUs and frames keeps the rules of a sound guest: laws, no code.
#![tactic(auto)]
