// The reply to a lease query, written into a lent buffer from its front.

#![tactic(auto)]

pub mod fixed;
pub mod options;
pub mod reply;
