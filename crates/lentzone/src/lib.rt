// The 64 places of a zone in lent octets, in the layout of the C struct: surveyed where they lie, one
// place asked for a name, read or written.

#![tactic(auto)]

mod decode;
mod encode;
pub mod layout;
mod look;
pub mod named;
mod names;
pub mod place;
mod rows;
pub mod survey;
