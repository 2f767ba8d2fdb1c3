// What is computed with doubles rises with what it is computed from: laws that the proofs of the other crates cite. It has no code: see proofs/.
#![tactic(auto)]
