// The transformations of AES's rounds and the key expansion, FIPS 197. The definitions are those of specs/.

#![tactic(auto)]

pub mod key;
pub mod state;
