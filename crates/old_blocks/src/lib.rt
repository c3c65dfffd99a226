#![tactic(auto)]

// That kerf 0 in the new block answers and leaves what the old block does, in the plan check, the writing call and the certificate:
// specs/OldBlocks has the statement, proofs/OldBlocks its proof. No code.
