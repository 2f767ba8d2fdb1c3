// What the three demands say of the whole job, and the laws of a field that a job returned: statements and proofs, no code.
