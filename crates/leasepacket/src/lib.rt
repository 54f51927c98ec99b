// A lease query as it comes in a packet: its layout, its options, and what it asks for.

#![tactic(auto)]

pub mod layout;
pub mod options;
pub mod query;
pub mod requested;
