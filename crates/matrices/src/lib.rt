// Bit matrices of up to 128 rows: one code for every width. The definitions are those of specs/.

#![tactic(auto)]

pub mod matrix;
pub mod nibbles;
