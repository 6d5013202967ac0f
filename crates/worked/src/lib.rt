// No code: specs/Worked.antt has examples beside the table of the crate `examples`, worked out by hand, and
// proofs/Worked.antt computes them from the definitions that the contracts cite.
#![tactic(auto)]
