// No code: what every state reached has, as the code needs it.
#![tactic(auto)]
