// The addresses of family 6.
ghost use Rattle.addresses.specs.Addresses.{octets6, counted6, empty_set6};
ghost use Rattle.std.specs.Prelude.{◌≡◌};

use crate::family::{Addr, Set};

#[repr(C)]
#[derive(Clone, Copy, PartialEq, Eq)]
pub struct Addr6 {
    pub octets: [u8; 16],
}

// Items from `count` on are ignored.
#[repr(C)]
#[derive(Clone, Copy)]
pub struct Set6 {
    pub items: [Addr6; 4],
    pub count: u8,
}

// The set of no addresses: zeros in all places.
impl Default for Set6 {
    ghost is_default = { λ s. s ≡ empty_set6 };

    fn default() -> Set6 {
        Set6 {
            items: [Addr6 { octets: [0; 16] }; 4],
            count: 0,
        }
    }
}

impl Addr for Addr6 {
    ghost octets_of = { octets6 };

    fn octets(&self) -> &[u8] {
        &self.octets
    }
}

impl Set for Set6 {
    type Addr = Addr6;

    ghost counted = { counted6 };

    fn places(&self) -> &[Addr6] {
        &self.items
    }

    fn count(&self) -> u8 {
        self.count
    }

    fn put(&mut self, place: usize, a: &Addr6) {
        if place < 4 {
            self.items[place] = *a;
        }
    }

    fn keep(&mut self, count: u8) {
        self.count = count;
    }
}
