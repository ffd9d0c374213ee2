// One table of a stage or half, spread or XOR, from the key and the bundle.

#![tactic(auto)]

mod spread;
pub mod table;
