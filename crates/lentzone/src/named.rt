// Whether a name stands at a place.
ghost use Rattle.std.specs.Prelude.{◌≡◌};
ghost use Rattle.zone.specs.Survey.{named};
ghost use Rattle.lentzone.specs.Decode.{entry_in};
ghost use Rattle.lentzone.specs.Inner.{row_at};

use crate::{look, rows};

// Whether the name stands at a place. Other than 23,936 octets hold no zone.
pub fn is_at(z: &[u8], n: &[u8], place: usize) -> bool
    ensures { result ≡ named n.now (entry_in (row_at z.now place)) }
{
    look::is_named(rows::row_at(z, place), n)
}
