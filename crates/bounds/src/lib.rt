// Bounds between places: definitions and laws, no code.
#![tactic(auto)]
