// The record of an address.
ghost use Rattle.std.specs.Prelude.{◌≡◌};
ghost use Rattle.leasetable.specs.Folds.{record_start, record_off, record_wants, record_add};

use crate::scanning::Carried;
use lease::Lease;

// The address that is looked for, and its record, if one is among those passed.
#[derive(Clone, Copy)]
pub struct Record {
    pub address: u64,
    pub best: Option<Lease>,
}

// No record is passed yet.
pub fn start(address: u64) -> Record
    ensures { result ≡ record_start address }
{
    Record {
        address,
        best: None,
    }
}

impl Carried for Record {
    ghost off = { record_off };

    ghost wants = { record_wants };

    ghost add = { record_add };

    fn is_off(&self) -> bool {
        false
    }

    // Whether a record has the address.
    #[inline]
    fn does_want(&self, x: Lease) -> bool {
        x.address as u64 == self.address
    }

    // The record is kept.
    #[inline]
    fn note(&mut self, x: Lease) {
        self.best = Some(x);
    }
}
