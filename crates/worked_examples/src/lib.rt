// The worked examples of the scope, as a list with one lemma over all of it. It has no code: see specs/ and proofs/.
#![tactic(auto)]
