// The bytes behind the S-box of a cipher, from the key and the bundle.

#![tactic(auto)]

pub mod source;
pub mod values;
