#![tactic(auto)]

// What the answers of the calls prove together at the true sizes, as one statement: specs/TrueBest has it, proofs/TrueBest its proof.
// No code.
