// The external encodings of a block: coding and uncoding under a bundle. The definitions are those of specs/.

#![tactic(auto)]

mod block;
pub mod coding;
