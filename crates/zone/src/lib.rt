// A zone by value, its form, and one walk over its 64 places: one function reads them all and sums them
// up, so that what follows works on that summary and on one place by value.

#![tactic(auto)]

use crate::entry::Entry;

pub mod entry;
pub mod fingerprint;
pub mod name;
pub mod survey;

// The places of a zone, free or with a name.
#[repr(C)]
#[derive(Clone, Copy)]
pub struct Zone {
    pub entries: [Entry; 64],
}
