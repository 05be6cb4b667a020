// The in-memory set's sibling on disk (document 02, [14]): the theorems about its definitions, which stand in crate format.

#![tactic(auto)]
