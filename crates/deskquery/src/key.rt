// The keys that a desk asks by.
ghost use Rattle.std.specs.Prelude.{◌≡◌};
ghost use Rattle.deskquery.specs.Query.{is_key};
ghost use Rattle.deskquery.specs.Promise.{key_of};

// An address, a hardware address by its type and octets, or a client id.
#[derive(Clone, Copy)]
pub enum Key<'a> {
    Address(u32),
    Hardware(u8, &'a [u8]),
    ClientId(&'a [u8]),
}

impl Key<'_> {
    // Whether a box takes the key, and a query can carry it.
    #[tactic(auto, unfolding(crate::specs::Query::is_key, crate::specs::Query::hardware_key))]
    pub(crate) fn is_taken(self) -> bool
        ensures { result ≡ is_key (key_of self.entry) }
    {
        match self {
            Key::Address(address) => address != 0,
            Key::Hardware(_, octets) => (1..=16).contains(&octets.len()),
            Key::ClientId(id) => (2..=255).contains(&id.len()),
        }
    }
}
