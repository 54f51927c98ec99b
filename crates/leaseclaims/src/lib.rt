// What follows from the promise of the lease query: specs/Claims.antt says it, proofs/ shows it.

#![tactic(auto)]
