// Deviance and solution (document 01, Records 6 and 7): what the calls answer and leave, as definitions in specs/; and the enum and the struct that
// they answer.
#![tactic(auto)]

// Record 6: the deviance, or the refused pivot's block and row, or no scale.
#[derive(Clone, Copy)]
pub enum Deviance {
    Value(f64),
    Pivot(u64, u64),
    NoScale,
}

// Record 7: the two scalars of a solution.
#[derive(Clone, Copy)]
pub struct Solution {
    pub deviance: f64,
    pub sigma2: f64,
}
