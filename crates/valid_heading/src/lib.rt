// What refusal 20 means (document 01, "Refused because of the state"), as theorems in proofs/: a heading passes exactly when its counts and layout are those of
// some sheet in form that 5 to 11 do not refuse (its length aside), its progress is none or some order of ready steps reaches it, the rows of a sparse pair are
// block 1's, and both lists are long enough.
#![tactic(auto)]
