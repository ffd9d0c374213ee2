// Encodings (lists) by number, one nibble to a byte: their images, what undoes them, and bytes decoded by two of them.

#![tactic(auto)]

mod bytes;
pub mod lists;
