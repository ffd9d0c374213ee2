// The bits of a set that the answer for a block rests on, had one by one from a call: document 02, Ticket 7. The
// definitions are those of specs/ and of crate sensitivity.

#![tactic(auto)]

pub mod search;
