#![tactic(auto)]

// The marked examples of the scope as one proved table: specs/Examples has the lines and what each says of the calls, proofs/Examples
// what is computed of each line and the law that makes theorems of it. No code.
