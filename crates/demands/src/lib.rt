// No code: the user's demands as statements of the code.
#![tactic(auto)]
