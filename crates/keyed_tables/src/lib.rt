// The tables of a key and an accepted bundle: all of them, as the set, or one.

#![tactic(auto)]

pub mod given;
pub mod single;
pub mod whole;
