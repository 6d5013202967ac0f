// No code: specs/Rule.antt is the plain rule of balanced breaking, and proofs/ has its mathematics: one division and no
// other meets it.
#![tactic(auto)]
