// What each family of addresses brings: its struct for an address, and that for a set of them.
ghost use Rattle.std.specs.Prelude.{◌≡◌, length, set};
ghost use Rattle.octets.specs.Count.{Octets};
ghost use Rattle.addresses.specs.Addresses.{Counted};

// An address: a string of octets.
pub trait Addr: Copy {
    ghost octets_of: { Self → Octets };

    fn octets(&self) -> &[u8]
        ensures { result.now ≡ octets_of self.now };
}

// A set: four places for addresses, of which the first ones count.
pub trait Set: Copy {
    type Addr: Addr;

    ghost counted: { Self → Counted Self.Addr };

    fn places(&self) -> &[Self::Addr]
        ensures items { result.now ≡ (counted self.now).items }
        ensures four { length result.now ≡ 4 };

    fn count(&self) -> u8
        ensures { result ≡ (counted self.now).count };

    // Of four places; at another nothing is written.
    fn put(&mut self, place: usize, a: &Self::Addr)
        ensures { counted self.new ≡ record { items = set (counted self.old).items place a.now; count = (counted self.old).count } };

    fn keep(&mut self, count: u8)
        ensures { counted self.new ≡ record { items = (counted self.old).items; count = count } };
}
