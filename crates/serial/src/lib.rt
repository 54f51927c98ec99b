// Demand 3: specs/Demand.antt says it, proofs/Demand.antt shows it. Nothing runs here.

#![tactic(auto)]
