// The three demands of the request on one page, proofs/Demands.antt: what is proved of the public
// functions' contracts. No code.
#![tactic(auto)]
