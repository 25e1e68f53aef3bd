// Doubles and their bits: the kind, significand and exponent of a double, products of 64-bit words, a word's double and back.
#![tactic(auto)]

pub mod double;
pub mod wide_product;
pub mod words;
