// The lookups of a walk, made in place in its standing bytes and area: one by one over a table, or, for crates that
// make a whole stage or half, over a set. The definitions are those of specs/ and of crates network and layout.

#![tactic(auto)]

mod area;
pub mod layer;
pub mod pair;
