// The record of a walk, written and replayed: document 02, Ticket 3. The definitions are those of specs/.

#![tactic(auto)]

mod compare;
pub mod record;
pub mod replay;
