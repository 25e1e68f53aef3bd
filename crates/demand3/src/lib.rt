// Demand 3 of the mission, about every list of calls from every accepted load: the proposition in specs/Demand.antt, its proof in proofs/.
#![tactic(auto)]

pub mod frame;
pub mod invariant;
mod pivot_laws;
mod response_laws;
mod same_rules;
mod step_laws;
