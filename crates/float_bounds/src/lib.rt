// Bounds on what is computed with doubles: definitions and laws, in specs/ and proofs/. There is no code here.
#![tactic(auto)]
