// No code: what is proved about the definitions, which stand in crate format.

#![tactic(auto)]
