// Laws of natural numbers, of tests and of lists that the other crates cite. It has no code: see specs/ and proofs/.
