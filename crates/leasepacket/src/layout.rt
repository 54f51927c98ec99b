// The layout of a packet (RFC 2131), the codes of options (RFC 2132, 3046, 4388) and the message types
// of lease queries (RFC 4388).

// Where the fixed fields begin; a field ends where the next one begins.
pub const OP: usize = 0;

pub const HTYPE: usize = 1;

pub const HLEN: usize = 2;

pub const HOPS: usize = 3;

pub const XID: usize = 4;

pub const SECS: usize = 8;

pub const FLAGS: usize = 10;

pub const CIADDR: usize = 12;

pub const YIADDR: usize = 16;

pub const GIADDR: usize = 24;

pub const CHADDR: usize = 28;

pub const SNAME: usize = 44;

// Where the magic cookie stands.
pub const MAGIC_COOKIE: usize = 236;

// Where the options begin, behind all fixed fields.
pub const OPTIONS: usize = 240;

// The octets of the longest packet that is read.
pub const LONGEST: usize = 1500;

// The op of a packet from a client or a relay agent.
pub const BOOTREQUEST: u8 = 1;

// The op of a packet from a server.
pub const BOOTREPLY: u8 = 2;

// The magic cookie, 99 130 83 99, as one number: 99 * 2^24 + 130 * 2^16 + 83 * 2^8 + 99.
pub const COOKIE: u32 = 1669485411;

// Option codes: one octet of padding.
pub const PAD: u8 = 0;

// The seconds that a lease has left.
pub const LEASE_TIME: u8 = 51;

// The message type.
pub const MESSAGE_TYPE: u8 = 53;

// The server's address.
pub const SERVER_ID: u8 = 54;

// The parameter request list: the codes of the options that a query asks for.
pub const PARAMETER_REQUEST_LIST: u8 = 55;

// The client id.
pub const CLIENT_ID: u8 = 61;

// The relay agent information.
pub const RELAY_INFORMATION: u8 = 82;

// The seconds since the client's last transaction.
pub const LAST_TRANSACTION_TIME: u8 = 91;

// The addresses of a client.
pub const ASSOCIATED_IP: u8 = 92;

// The end of the options.
pub const END: u8 = 255;

// Message types: a lease query.
pub const DHCPLEASEQUERY: u8 = 10;

// A reply about an address that is not leased.
pub const DHCPLEASEUNASSIGNED: u8 = 11;

// A reply about nothing that the server knows.
pub const DHCPLEASEUNKNOWN: u8 = 12;

// A reply about an active lease.
pub const DHCPLEASEACTIVE: u8 = 13;

// The most octets that a hardware address has.
pub const LONGEST_HARDWARE: u8 = 16;

// The fewest octets that a client id has.
pub const SHORTEST_CLIENT_ID: usize = 2;
