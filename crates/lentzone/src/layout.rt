// The layout of a zone in lent octets, which is that of the C struct: 64 places, one behind the other.
pub const ZONE_SIZE: usize = 23936;

pub const PLACE_SIZE: usize = 374;

// Where the parts of a place begin, behind its kind; a part ends where the next one begins.
pub const NAME: usize = 1;

pub const NAME_LENGTH: usize = 256;

pub const DHCID: usize = 257;

pub const SET4: usize = 292;

pub const SET6: usize = 309;
