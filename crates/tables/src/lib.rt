// The maker's calls: one table, and the whole set.

#![tactic(auto)]

pub mod make;
