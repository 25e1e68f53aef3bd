// The orders of operation of Records 4, 6 and 7 (document 01), over any arithmetic, as definitions in specs/; a block is a function of row and
// column, and there is no memory. Laws of them in proofs/.
#![tactic(auto)]
