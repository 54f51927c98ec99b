// Octets written into a lent buffer from a place on. Each writer answers the place behind what it
// wrote; where not all of it fits it writes nothing and answers the place it was given.
ghost use Rattle.std.specs.Prelude.{[], ◌∷◌, ◌≡◌, ◌+◌, ◌<◌, ◌≤◌, replicate, MatchOption};
ghost use Rattle.octets.specs.Number.{big_endian};
ghost use Rattle.octets.specs.Write.{Laid};

use crate::number;

// The place behind n octets from a place on, if a buffer of so many octets has room for them.
fn place_behind(room: usize, at: usize, n: usize) -> Option<usize>
    ensures { MatchOption result (room < at + n) (λ end. (end ≡ at + n) × (end ≤ room)) }
{
    at.checked_add(n).filter(|end| *end <= room)
}

// A string of octets.
pub fn put_octets(buf: &mut [u8], at: usize, src: &[u8]) -> usize
    ensures { Laid buf.old at src.now buf.new result }
{
    let Some(end) = place_behind(buf.len(), at, src.len()) else {
        return at;
    };
    for (i, x) in src.iter().enumerate() {
        buf[at + i] = *x;
    }
    end
}

// One octet.
pub fn put_octet(buf: &mut [u8], at: usize, v: u8) -> usize
    ensures { Laid buf.old at (v ∷ []) buf.new result }
{
    put_octets(buf, at, &[v])
}

// The four octets of a number, most significant first.
pub fn put_u32(buf: &mut [u8], at: usize, v: u32) -> usize
    ensures { Laid buf.old at (big_endian 4 v) buf.new result }
{
    put_octets(buf, at, &number::u32_octets(v))
}

// Zeros.
pub fn put_zeros(buf: &mut [u8], at: usize, n: usize) -> usize
    ensures { Laid buf.old at (replicate n 0) buf.new result }
{
    let Some(end) = place_behind(buf.len(), at, n) else {
        return at;
    };
    buf[at..end].fill(0);
    end
}
