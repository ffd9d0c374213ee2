// The bundle: its format, its encodings and matrices by number, and causes 2 and 3. The definitions are those of specs/.

#![tactic(auto)]

pub mod frame;
pub mod layout;
pub mod parts;
pub mod sections;
