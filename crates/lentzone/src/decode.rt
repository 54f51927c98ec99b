// One place in 374 octets: what stands there.
ghost use Rattle.std.specs.Prelude.{◌≡◌, length};
ghost use Rattle.addresses.specs.Addresses.{list4, list6, sound};
ghost use Rattle.zone.specs.Meaning.{sound_sets};
ghost use Rattle.zone.specs.Survey.{records_of};
ghost use Rattle.lentzone.specs.Decode.{addr4, addr6, set4_in, set6_in, entry_in};

use crate::layout::{DHCID, NAME, NAME_LENGTH, PLACE_SIZE, SET4, SET6};
use crate::rows::Row;
use addresses::set;
use addresses::set4::{Addr4, Set4};
use addresses::set6::{Addr6, Set6};
use dname::name::Name;
use octets::write;
use zone::entry::{Dhcid, Entry, Records};

// So many octets as an array.
fn array_in<const N: usize>(s: &[u8]) -> [u8; N]
    requires { length s.now ≡ N }
    ensures { result ≡ s.now }
{
    let mut octets = [0; N];
    write::put_octets(&mut octets, 0, s);
    octets
}

fn addr4_in(s: &[u8]) -> Addr4
    requires { length s.now ≡ 4 }
    ensures { result ≡ addr4 s.now }
{
    Addr4 {
        octets: array_in(s),
    }
}

fn addr6_in(s: &[u8]) -> Addr6
    requires { length s.now ≡ 16 }
    ensures { result ≡ addr6 s.now }
{
    Addr6 {
        octets: array_in(s),
    }
}

fn set4_in(s: &[u8]) -> Set4
    requires { length s.now ≡ 17 }
    ensures { result ≡ set4_in s.now }
{
    let a = addr4_in(&s[0..4]);
    let b = addr4_in(&s[4..8]);
    let c = addr4_in(&s[8..12]);
    let d = addr4_in(&s[12..16]);
    Set4 {
        items: [a, b, c, d],
        count: s[16],
    }
}

fn set6_in(s: &[u8]) -> Set6
    requires { length s.now ≡ 65 }
    ensures { result ≡ set6_in s.now }
{
    let a = addr6_in(&s[0..16]);
    let b = addr6_in(&s[16..32]);
    let c = addr6_in(&s[32..48]);
    let d = addr6_in(&s[48..64]);
    Set6 {
        items: [a, b, c, d],
        count: s[64],
    }
}

// What stands there.
pub(crate) fn records_in(e: &Row) -> Records
    ensures { result ≡ records_of (entry_in e.now) }
{
    Records {
        kind: e[0],
        dhcid: Dhcid {
            octets: array_in(&e[DHCID..SET4]),
        },
        v4: set4_in(&e[SET4..SET6]),
        v6: set6_in(&e[SET6..PLACE_SIZE]),
    }
}

// The whole place: what stands there, and its name.
pub(crate) fn entry_in(e: &Row) -> Entry
    ensures { result ≡ entry_in e.now }
{
    let Records {
        kind,
        dhcid,
        v4,
        v6,
    } = records_in(e);
    let name = Name {
        octets: array_in(&e[NAME..NAME_LENGTH]),
        len: e[NAME_LENGTH],
    };
    Entry {
        kind,
        name,
        dhcid,
        v4,
        v6,
    }
}

// Whether the addresses have their form; a set of one address or none always has it.
fn is_sound4_in(s: &[u8]) -> bool
    requires { length s.now ≡ 17 }
    ensures { result ≡ sound (set4_in s.now).count (list4 (set4_in s.now)) }
{
    s[16] < 2 || set::is_sound(&set4_in(s))
}

fn is_sound6_in(s: &[u8]) -> bool
    requires { length s.now ≡ 65 }
    ensures { result ≡ sound (set6_in s.now).count (list6 (set6_in s.now)) }
{
    s[64] < 2 || set::is_sound(&set6_in(s))
}

// Whether the address sets of a place have their form.
pub(crate) fn are_sets_sound(e: &Row) -> bool
    ensures { result ≡ sound_sets (entry_in e.now).v4 (entry_in e.now).v6 }
{
    is_sound4_in(&e[SET4..SET6]) && is_sound6_in(&e[SET6..PLACE_SIZE])
}
