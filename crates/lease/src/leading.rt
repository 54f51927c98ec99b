// Octets as one number, by which they are compared at once.
ghost use Rattle.std.specs.Prelude.{◌≡◌, ◌≤◌, length, take};
ghost use Rattle.octets.specs.Word.{value};
ghost use Rattle.lease.specs.Leading.{leading};

use octets::word;

// Of a number of eight octets, what the first n of them make.
#[tactic(auto, unfolding(crate::specs::Leading::leading))]
fn leading_octets(n: u8, v: u64) -> u64
    ensures { result ≡ leading n v }
{
    match n {
        0 => 0,
        1..=7 => v << (64 - 8 * n),
        _ => v,
    }
}

// What the first n octets, at most eight of them, make.
pub(crate) fn leading_of(n: u8, s: &[u8]) -> u64
    requires { 8 ≤ length s.now }
    ensures { result ≡ leading n (value (take 8 s.now)) }
{
    let v = word::eight(s[0], s[1], s[2], s[3], s[4], s[5], s[6], s[7]);
    leading_octets(n, v)
}
