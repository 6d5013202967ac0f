// No code: proofs/ shows how far the targets of an accepted line reach, so that the steps after flexing take them.
#![tactic(auto)]
