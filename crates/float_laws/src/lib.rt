// The order of floats: laws that the proofs of the other crates cite. It has no code: see proofs/.
#![tactic(auto)]
