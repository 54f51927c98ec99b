// The octets of what stands at a place.
ghost use Rattle.addresses.specs.Addresses.{octets4, octets6, counted4, counted6};
ghost use Rattle.zone.specs.Survey.{place_of};
ghost use Rattle.lentzone.specs.Inner.{PutAddress, PutSet, PutRecords, PutEntry};

use addresses::set4::{Addr4, Set4};
use addresses::set6::{Addr6, Set6};
use dname::name::Name;
use octets::write;
use zone::entry::Records;

fn put4(a: Addr4, z: &mut [u8], at: usize) -> usize
    ensures { PutAddress 4 a.octets z.old at z.new result }
{
    write::put_octets(z, at, &a.octets)
}

fn put_set4(s: Set4, z: &mut [u8], at: usize) -> usize
    ensures { PutSet 4 octets4 (counted4 s) z.old at z.new result }
{
    let p = put4(s.items[0], z, at);
    let q = put4(s.items[1], z, p);
    let r = put4(s.items[2], z, q);
    let t = put4(s.items[3], z, r);
    write::put_octet(z, t, s.count)
}

fn put6(a: Addr6, z: &mut [u8], at: usize) -> usize
    ensures { PutAddress 16 a.octets z.old at z.new result }
{
    write::put_octets(z, at, &a.octets)
}

fn put_set6(s: Set6, z: &mut [u8], at: usize) -> usize
    ensures { PutSet 16 octets6 (counted6 s) z.old at z.new result }
{
    let p = put6(s.items[0], z, at);
    let q = put6(s.items[1], z, p);
    let r = put6(s.items[2], z, q);
    let t = put6(s.items[3], z, r);
    write::put_octet(z, t, s.count)
}

// The octets behind the name: the DHCID and the addresses.
pub(crate) fn put_records(r: Records, z: &mut [u8], at: usize) -> usize
    ensures { PutRecords r z.old at z.new result }
{
    let p = write::put_octets(z, at, &r.dhcid.octets);
    let q = put_set4(r.v4, z, p);
    put_set6(r.v6, z, q)
}

// The octets of a place.
pub(crate) fn put_entry(n: Name, r: Records, z: &mut [u8], at: usize) -> usize
    ensures { PutEntry (place_of n r) z.old at z.new result }
{
    let p = write::put_octet(z, at, r.kind);
    let q = write::put_octets(z, p, &n.octets);
    let t = write::put_octet(z, q, n.len);
    put_records(r, z, t)
}
