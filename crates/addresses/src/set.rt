// Sets of addresses, whichever the family.
ghost use Rattle.std.specs.Prelude.{◌≡◌, ◌≤◌, ◌||◌, eqb, ltb, length, map};
ghost use Rattle.octets.specs.Count.{member, distinct};
ghost use Rattle.octets.specs.Compare.{same_octets};
ghost use Rattle.addresses.specs.Addresses.{held, listed, sound, within, Added, Removed};

use crate::family::{Addr, Set};
use octets::compare;

// The addresses of a set.
fn held<S: Set>(s: &S) -> &[S::Addr]
    ensures list { result.now ≡ held (S.counted s.now) }
    ensures four { length (S.counted s.now).items ≡ 4 }
{
    let n = s.count().min(4) as usize;
    &s.places()[..n]
}

fn is_same<A: Addr>(a: &A, b: &A) -> bool
    ensures { result ≡ same_octets (A.octets_of a.now) (A.octets_of b.now) }
{
    compare::same(a.octets(), b.octets())
}

// Whether the address is one of these.
fn is_among<A: Addr>(a: &A, l: &[A]) -> bool
    ensures { result ≡ member (A.octets_of a.now) (map A.octets_of l.now) }
{
    l.iter().any(|b| is_same(b, a))
}

// Whether the set has the address.
pub fn has<S: Set>(s: &S, a: &S::Addr) -> bool
    ensures { result ≡ member (S.Addr.octets_of a.now) (listed S.Addr.octets_of (S.counted s.now)) }
{
    is_among(a, held(s))
}

// Whether no two of the addresses are equal.
fn is_distinct<A: Addr>(l: &[A]) -> bool
    ensures { result ≡ distinct (map A.octets_of l.now) }
{
    let mut rest = l;
    while let Some((a, behind)) = rest.split_first() {
        if is_among(a, behind) {
            return false;
        }
        rest = behind;
    }
    true
}

// Whether the set has the form that a set must have.
pub fn is_sound<S: Set>(s: &S) -> bool
    ensures { result ≡ sound (S.counted s.now).count (listed S.Addr.octets_of (S.counted s.now)) }
{
    if s.count() > 4 {
        return false;
    }
    is_distinct(held(s))
}

// Whether every address of one set is in another.
pub fn is_within<S: Set>(s: &S, t: &S) -> bool
    ensures { result ≡ within (listed S.Addr.octets_of (S.counted s.now)) (listed S.Addr.octets_of (S.counted t.now)) }
{
    held(s).iter().all(|a| has(t, a))
}

// The set with the address behind the others, unless it is there or there is no room for it.
pub fn join<S: Set>(s: &S, a: &S::Addr) -> S
    ensures { Added S.Addr.octets_of a.now (S.counted s.now) (S.counted result) }
{
    let n = held(s).len();
    if n == 4 || has(s, a) {
        return *s;
    }
    let mut t = *s;
    t.put(n, a);
    t.keep(n as u8 + 1);
    t
}

// The set without the address; the others keep their order.
pub fn without<S: Set>(s: &S, a: &S::Addr) -> S
    ensures { Removed S.Addr.octets_of a.now (S.counted s.now) (S.counted result) }
{
    let mut t = *s;
    let mut n: u8 = 0;
    for b in held(s) {
        if !is_same(b, a) {
            t.put(n as usize, b);
            n += 1;
        }
    }
    t.keep(n);
    t
}

// How many addresses the set has.
pub fn count<S: Set>(s: &S) -> usize
    ensures { (result ≡ length (listed S.Addr.octets_of (S.counted s.now))) × (result ≤ 4) }
{
    held(s).len()
}

// Whether the set has no address.
pub fn is_empty<S: Set>(s: &S) -> bool
    ensures { result ≡ eqb (length (listed S.Addr.octets_of (S.counted s.now))) 0 }
{
    held(s).is_empty()
}

// Whether the address is there, or there is room for it.
pub fn has_room<S: Set>(s: &S, a: &S::Addr) -> bool
    ensures { result ≡ (member (S.Addr.octets_of a.now) (listed S.Addr.octets_of (S.counted s.now)) || ltb (length (listed S.Addr.octets_of (S.counted s.now))) 4) }
{
    held(s).len() < 4 || has(s, a)
}
