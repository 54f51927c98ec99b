// The form that a lease must have in the table, but for the order of the addresses.
ghost use Rattle.std.specs.Prelude.{◌≡◌, drop};
ghost use Rattle.lease.specs.Lease.{all_zero, hardware_fits, lengths_fit, moments_fit, well_formed};

use crate::Lease;
use clock::Moment;
use octets::word;

// Whether all octets are zero. Each is looked at, with no early way out, so that it compiles to vector
// code.
fn is_zero(s: &[u8]) -> bool
    ensures { result ≡ all_zero s.now }
{
    s.iter().fold(true, |zero, x| zero & (*x == 0))
}

// Whether all octets behind the first six are zero. Six is the usual length, and as numbers the
// octets are compared in two steps.
fn is_zero_from_6(s: &[u8; 16]) -> bool
    ensures { result ≡ all_zero (drop 6 s.now) }
{
    word::eight(s[8], s[9], s[10], s[11], s[12], s[13], s[14], s[15]) == 0
        && word::four(s[6], s[7], 0, 0) == 0
}

// A hardware address has at most 16 octets, with zeros behind them; one of none has type 0. Only where
// the octets behind any length are looked at are they copied out of the record.
#[tactic(auto, unfolding(crate::specs::Lease::hardware_fits))]
fn does_hardware_fit(htype: u8, hlen: u8, chaddr: [u8; 16]) -> bool
    ensures { result ≡ hardware_fits htype hlen chaddr }
{
    match hlen {
        0 => htype == 0 && is_zero(&chaddr),
        6 => is_zero_from_6(&chaddr),
        1..=16 => {
            let chaddr = chaddr;
            is_zero(&chaddr[hlen as usize..])
        }
        _ => false,
    }
}

// A client id has no octets or 2 to 64, relay information at most 64.
#[tactic(auto, unfolding(crate::specs::Lease::lengths_fit))]
fn do_lengths_fit(idlen: u8, relaylen: u8) -> bool
    ensures { result ≡ lengths_fit idlen relaylen }
{
    idlen != 1 && idlen <= 64 && relaylen <= 64
}

// The last transaction was at a moment, and the expiry is a moment or never.
#[tactic(auto, unfolding(crate::specs::Lease::moments_fit))]
fn do_moments_fit(last: Moment, expiry: Moment) -> bool
    ensures { result ≡ moments_fit last expiry }
{
    clock::is_moment(last) && clock::is_expiry(expiry)
}

// Whether a record has the form of a lease.
#[inline]
#[tactic(auto, unfolding(crate::specs::Lease::well_formed))]
pub fn is_well_formed(x: Lease) -> bool
    ensures { result ≡ well_formed x }
{
    x.state <= 1
        && do_lengths_fit(x.idlen, x.relaylen)
        && do_moments_fit(x.last, x.expiry)
        && does_hardware_fit(x.htype, x.hlen, x.chaddr)
}
