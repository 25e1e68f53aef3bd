// The book of Record 5 (document 01), as definitions in specs/: what it holds, how each call is entered, and what it says of answers, progress and
// steps left.
#![tactic(auto)]
