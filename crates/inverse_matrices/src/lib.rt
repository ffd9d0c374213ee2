// The inverses of a bundle's matrices, as the words of their rows, and the number of a column matrix.

#![tactic(auto)]

pub mod column;
pub mod inverse;
pub mod inverses;
