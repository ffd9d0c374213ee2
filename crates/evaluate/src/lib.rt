// The evaluation of a set: start, move to a stop, move of one lookup, fetch. The definitions are those of specs/ and of
// crate calls.

#![tactic(auto)]

pub mod walk;
