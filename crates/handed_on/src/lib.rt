// No code: proofs/ shows that what a call hands on is what a later one takes.
#![tactic(auto)]
