// Bit vectors of up to 128 bits, one code for every width; nibbles of bytes and their encodings; blocks of 16 bytes;
// parts of a slice and the numbers that its bytes write. The definitions are those of specs/.

#![tactic(auto)]

pub mod block;
pub mod encoding;
pub mod slices;
pub mod vector;
