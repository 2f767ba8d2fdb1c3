// Definitions and lemmas alone: the reference model of window trimming, and demand 3 for it.
#![tactic(auto)]
