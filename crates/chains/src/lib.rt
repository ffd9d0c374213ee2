// All calls one after the other, from a key to the block again: a function above them, whose contract follows from the
// calls' contracts and from demand 2.

#![tactic(auto)]

pub mod whole;
