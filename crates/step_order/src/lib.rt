// The steps of an update, their forerunners and the Rust's order (document 01, Records 4 and 5), as definitions in specs/; the theorem that no order
// changes the result in proofs/.
#![tactic(auto)]
