// Slips in both forms hold the same jobs: definitions and laws, no code.
#![tactic(auto)]
