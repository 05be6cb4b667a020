// No code: every definition of the documents stands in specs/, and the computed cases about them in proofs/. What is proved of the definitions
// stands in crate laws, the types of the library's answers in crate answers.

#![tactic(auto)]
