// AES, forward and inverse, as a network of lookups, and demands 2 and 3 and the round trip about it: definitions in specs/, theorems in proofs/laws/. No code of its own.

#![tactic(auto)]
