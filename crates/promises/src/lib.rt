// No code: specs/Promises.antt says in one record what this library promises, and proofs/Promises.antt fills it.
#![tactic(auto)]
