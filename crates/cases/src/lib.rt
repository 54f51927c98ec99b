// The proof cases of document 01, as one statement over one list: specs/Cases.antt says it, and
// proofs/CasesHold.antt shows it.

#![tactic(auto)]
