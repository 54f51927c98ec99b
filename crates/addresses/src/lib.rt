// The addresses of one name: for each family an array of small address structs by value, of which
// the first `count` are the set. Every public function takes all input, a count above four too.

#![tactic(auto)]

pub mod family;
pub mod set;
pub mod set4;
pub mod set6;
