// Strings of octets: compared, read as numbers and written into lent buffers. Every public function
// takes all input: a read past the end gives 0, and what does not fit is not written.
#![tactic(auto)]

pub mod compare;
pub mod number;
pub mod word;
pub mod write;
