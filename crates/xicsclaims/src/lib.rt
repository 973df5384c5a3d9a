// Claims about the calls on an XICS; no code.
#![tactic(auto)]
