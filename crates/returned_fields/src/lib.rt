// A field that a job returned, lent again with its job: refusal 20 passes it, and the queries walk its lists. Statements and proofs, no code.
