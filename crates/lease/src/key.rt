// The keys that a lease has.
ghost use Rattle.std.specs.Prelude.{◌≡◌, ◌≤◌, length};
ghost use Rattle.lease.specs.Lease.{same_key, has_hardware, has_client_id};

use crate::{Lease, leading};
use octets::compare;

// How many leading octets are compared as one number.
const LEADING: u8 = 8;

// Whether the first n octets agree, n being at most the length of a key's place, one by one.
fn do_all_match(n: u8, a: &[u8], b: &[u8]) -> bool
    requires { length a.now ≤ length b.now }
    ensures { result ≡ same_key (length a.now) n a.now b.now }
{
    let m = n as usize;
    m <= a.len() && compare::same(&a[..m], &b[..m])
}

// The same. The first eight are compared as numbers: most keys that differ do so there, and a key of at
// most eight octets has no more.
fn do_match(n: u8, a: &[u8], b: &[u8]) -> bool
    requires eight { 8 ≤ length a.now }
    requires within { length a.now ≤ length b.now }
    ensures { result ≡ same_key (length a.now) n a.now b.now }
{
    leading::leading_of(n, a) == leading::leading_of(n, b)
        && (n <= LEADING || do_all_match(n, a, b))
}

// Whether a lease has a hardware address: a type and the first n of some octets. Its own are taken out
// of the record first, so that the compiler reads the rest of it where it lies in a table.
#[inline]
#[tactic(auto, unfolding(crate::specs::Lease::has_hardware))]
pub fn has_hardware(x: Lease, htype: u8, n: u8, octets: &[u8; 64]) -> bool
    ensures { result ≡ has_hardware htype n octets.now x }
{
    let chaddr = x.chaddr;
    x.htype == htype && x.hlen == n && do_match(n, &chaddr, octets)
}

// Whether a lease has a client id: the first n of some octets. Its own are taken out first here too.
#[inline]
#[tactic(auto, unfolding(crate::specs::Lease::has_client_id))]
pub fn has_client_id(x: Lease, n: u8, octets: &[u8; 64]) -> bool
    ensures { result ≡ has_client_id n octets.now x }
{
    let id = x.id;
    x.idlen == n && do_match(n, &id, octets)
}
