// The zone: the rules of its requests, what its structs mean, which numbers a request may have, and
// what it tests at a name before it writes.

#![tactic(auto)]

pub mod numbers;
pub mod prerequisite;
