// One place of a zone in lent octets: read, and written. There are 64 places of 374 octets each;
// where there are not 23,936 octets, or no such place, nothing is written. A place that is none has a way
// out of its own in both readers: so the compiler copies what is read no more often than it has to.
ghost use Rattle.std.specs.Prelude.{◌≡◌, replicate};
ghost use Rattle.zone.specs.Survey.{place_of, records_of};
ghost use Rattle.lentzone.specs.Decode.{entry_in};
ghost use Rattle.lentzone.specs.Inner.{row_at, records_at, name_at, Written};

use crate::layout::{DHCID, PLACE_SIZE, ZONE_SIZE};
use crate::{decode, encode, rows};
use dname::name::Name;
use octets::write;
use zone::entry::{Entry, Records};

// What stands in a place of zeros.
fn nothing() -> Records
    ensures { result ≡ records_of (entry_in (replicate 374 0)) }
{
    decode::records_in(&[0; PLACE_SIZE])
}

// What stands at a place; as in a place of zeros where there is no such place.
pub fn records_at(z: &[u8], place: usize) -> Records
    ensures { result ≡ records_at z.now place }
{
    let Some(row) = rows::row_in(z, place) else {
        return nothing();
    };
    decode::records_in(row)
}

// A place of zeros.
fn free_entry() -> Entry
    ensures { result ≡ entry_in (replicate 374 0) }
{
    decode::entry_in(&[0; PLACE_SIZE])
}

// A place whole, octet for octet; zeros where there is no such place.
pub fn entry_at(z: &[u8], place: usize) -> Entry
    ensures { result ≡ entry_in (row_at z.now place) }
{
    let Some(row) = rows::row_in(z, place) else {
        return free_entry();
    };
    decode::entry_in(row)
}

// What stands at a place written; its name stays.
pub fn write_records(z: &mut [u8], place: usize, r: Records)
    ensures { Written z.old place (place_of (name_at z.old place) r) z.new }
{
    if place < 64 && z.len() == ZONE_SIZE {
        let at = place * PLACE_SIZE;
        write::put_octet(z, at, r.kind);
        encode::put_records(r, z, at + DHCID);
    }
}

// A place written whole, with a name.
pub fn write_entry(z: &mut [u8], place: usize, n: Name, r: Records)
    ensures { Written z.old place (place_of n r) z.new }
{
    if place < 64 && z.len() == ZONE_SIZE {
        encode::put_entry(n, r, z, place * PLACE_SIZE);
    }
}
