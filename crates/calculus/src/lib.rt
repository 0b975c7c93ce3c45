// No code: the calculus as definitions and theorems.
#![tactic(auto)]
