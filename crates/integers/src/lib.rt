// Whole numbers: definitions and laws, no code.
#![tactic(auto)]
