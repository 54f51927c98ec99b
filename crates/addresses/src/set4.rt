// The addresses of family 4.
ghost use Rattle.addresses.specs.Addresses.{octets4, counted4, empty_set4};
ghost use Rattle.std.specs.Prelude.{◌≡◌};

use crate::family::{Addr, Set};

#[repr(C)]
#[derive(Clone, Copy, PartialEq, Eq)]
pub struct Addr4 {
    pub octets: [u8; 4],
}

// Items from `count` on are ignored.
#[repr(C)]
#[derive(Clone, Copy)]
pub struct Set4 {
    pub items: [Addr4; 4],
    pub count: u8,
}

// The set of no addresses: zeros in all places.
impl Default for Set4 {
    ghost is_default = { λ s. s ≡ empty_set4 };

    fn default() -> Set4 {
        Set4 {
            items: [Addr4 { octets: [0; 4] }; 4],
            count: 0,
        }
    }
}

impl Addr for Addr4 {
    ghost octets_of = { octets4 };

    fn octets(&self) -> &[u8] {
        &self.octets
    }
}

impl Set for Set4 {
    type Addr = Addr4;

    ghost counted = { counted4 };

    fn places(&self) -> &[Addr4] {
        &self.items
    }

    fn count(&self) -> u8 {
        self.count
    }

    fn put(&mut self, place: usize, a: &Addr4) {
        if place < 4 {
            self.items[place] = *a;
        }
    }

    fn keep(&mut self, count: u8) {
        self.count = count;
    }
}
