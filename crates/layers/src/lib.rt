// The words of the spread tables of the cipher's layers, from the bundle.

#![tactic(auto)]

pub mod words;
