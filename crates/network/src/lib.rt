// The lookup network: the definitions of specs/ and what is proved of them. The only code here is a struct that definitions and code share.

#![tactic(auto)]

// The place of a table's entry in a set: the byte that it begins in, and its half of that byte, 0 high or 1 low. A spread entry has whole bytes, and 0.
#[derive(Clone, Copy)]
pub struct EntryPlace {
    pub offset: usize,
    pub half: usize,
}
