// A day fed in pieces: what is known of it, what comes next, and the laws of it. Definitions and
// proofs only.
#![tactic(auto)]
