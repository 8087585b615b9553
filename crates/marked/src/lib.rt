// The marked examples of paper 01, P1 to P13, as one statement, specs/Table.antt, that is proved of the public
// functions' contracts, proofs/Marked.antt. No code: the program `examples` runs them.
#![tactic(auto)]
