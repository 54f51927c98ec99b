// The name option of DHCPv6 (RFC 4704): the flag decision and the server's answer. Both are calls
// for the C address server, so they take numbers and slices of octets, and answer structs of numbers.

#![tactic(auto)]

pub mod answer;
pub mod flags;
pub mod refusal;
