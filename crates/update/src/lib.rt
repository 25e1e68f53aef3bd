// Begin and the steps of an update (document 01, Records 4 and 5): what the calls answer and leave, as definitions in specs/.
#![tactic(auto)]

pub mod progress_laws;

// A step's name (document 01, Record 4): S(i, j, h), C(j), T(i, j). Any numbers may be asked for.
#[derive(Clone, Copy)]
pub enum StepName {
    S(u64, u64, u64),
    C(u64),
    T(u64, u64),
}
