// The run file as a definition over bytes. No code: `reader` reads it.
#![tactic(auto)]
