// The state of window trimming as values: definitions and laws, no code.
#![tactic(auto)]
