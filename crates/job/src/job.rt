// A job by value.
use dname::name::Name;
use zone::entry::{Address, Dhcid};

// stage: an add is before request A (1) or B (2), done (3), in conflict (4), without room (5), or
// gave up (6); a remove is before its first request (11) or its second (12), or found the name not
// ours (13), gone (14) or kept (15). Any other number is refused.
// count: the requests that an add has sent; ignored for a remove.
// family: 4 or 6. policy: 0 keeps other addresses, 1 leaves only this one of its family, 2 only
// this one; ignored for a remove.
// address: of family 4 the first 4 octets, of family 6 all 16.
#[repr(C)]
#[derive(Clone, Copy)]
pub struct Job {
    pub stage: u8,
    pub count: u8,
    pub family: u8,
    pub policy: u8,
    pub name: Name,
    pub dhcid: Dhcid,
    pub address: Address,
}
