// Theorems: a new response leaves, to the last bit, what load of the sheet with that response would have left; and after any list of calls whose responses hold
// binary64 numbers the book's freshly loaded workspace is what load of some sheet leaves.
#![tactic(auto)]
