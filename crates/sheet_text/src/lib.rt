// Which bytes `load` accepts, said without a reader (document 01, Records 1 and 3): a sheet as text and the acceptable sheets in specs/, the theorem
// that load accepts exactly those in proofs/.
#![tactic(auto)]

pub mod written;
