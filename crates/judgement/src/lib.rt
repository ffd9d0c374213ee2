// The judgement of a bundle. The definitions are those of specs/.

#![tactic(auto)]

pub mod judge;
mod search;
