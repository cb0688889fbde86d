#![tactic(auto)]
// The rows of 01, Measured on the bench, that are marked P. It has no code: specs/Rows.antt is the list, proofs/Bench.antt the one statement.
