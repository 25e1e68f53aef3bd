// Theorems: where nothing is rounded, the blocked factor times its transpose is the matrix that the blocks started from, for dense packed blocks, and
// the blocked solves solve with it.
#![tactic(auto)]
