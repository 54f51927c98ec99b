// Octets in hexadecimal digits, two an octet.
ghost use Rattle.std.specs.Prelude.{length, ◌+◌, ◌*◌, ◌≤◌};
ghost use Rattle.octets.specs.Write.{Wrote, Laid};
ghost use Rattle.text.specs.Text.{hex};

// The digits of octets, where they fit.
fn spell(buf: &mut [u8], at: usize, src: &[u8]) -> usize
    requires { at + 2 * length src.now ≤ length buf.old }
    ensures { Wrote buf.old at (hex src.now) buf.new result }
{
    for (i, x) in src.iter().enumerate() {
        buf[at + 2 * i] = crate::character(x / 16);
        buf[at + 2 * i + 1] = crate::character(x % 16);
    }
    at + 2 * src.len()
}

// Octets in hexadecimal digits.
pub fn put_hex(buf: &mut [u8], at: usize, src: &[u8]) -> usize
    ensures { Laid buf.old at (hex src.now) buf.new result }
{
    if buf.len() < at {
        return at;
    }
    if (buf.len() - at) / 2 < src.len() {
        return at;
    }
    spell(buf, at, src)
}
