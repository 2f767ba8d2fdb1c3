// How large the numbers of a checked mesh get: laws, in proofs/. There is no code here.
#![tactic(auto)]
