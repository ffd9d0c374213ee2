// What a held walk is and what its calls answer, over any memory: a walk knows no key. Definitions and statements in specs/, theorems in proofs/laws/. No code of
// its own; crate evaluate has the calls.

#![tactic(auto)]
