// The edges of a mesh and its frames: definitions and the laws that the other crates cite, in specs/ and proofs/. There is no code here.
#![tactic(auto)]
