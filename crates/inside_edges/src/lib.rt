// Candidates and windows lie on their edges, from 0 to the length: definitions and laws, no code.
#![tactic(auto)]
