// The square root and the hypotenuse of IEEE 754, as definitions, and what they mean. It has no code: see specs/ and proofs/.
