// Which bits of a table set the answer for a block rests on: document 02, Ticket 7. Definitions and statements in specs/, theorems in proofs/laws/. No code of its
// own; crate next_bit has the call.

#![tactic(auto)]
