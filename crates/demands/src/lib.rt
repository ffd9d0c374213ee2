// Demands 2 and 3 and the round trip, of the calls in code: statements in specs/, theorems in proofs/laws/. No code of its own.

#![tactic(auto)]
