// The slip of a job is read as that job: definitions and laws, no code.
#![tactic(auto)]
