// Document 01's layout of a set: the stage, the table size and the offset of a lookup, the numbers of encodings; and the two
// ciphers' row shifts. The definitions are those of specs/.

#![tactic(auto)]

pub mod cipher;
pub mod numbers;
pub mod stage;
