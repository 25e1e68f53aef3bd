// What a step does to the blocks of a workspace (document 01, Record 4): S subtracts products, T solves, C factors, each by the kernel for the kinds
// of its blocks.
#![tactic(auto)]

pub mod factor_block;
pub mod factor_logs;
pub mod solve_block;
pub mod subtract_block;
mod subtract_dense;
mod subtract_square;
