// The standard streams of the programs: what they read, the lines that they write, and what is said where a read or a write fails.

#![tactic(auto)]

pub mod line;
pub mod stream;
