// No code: specs/Table.antt is the table of document 01, P1 to P15, and proofs/Table.antt shows that the definitions
// which the contracts cite give its answers and no others.
#![tactic(auto)]
