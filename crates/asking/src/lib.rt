// How many requests an add sends: specs/Asking.antt says it, proofs/ shows it.

#![tactic(auto)]
