// Numbers in strings of octets, most significant octet first.
ghost use Rattle.std.specs.Prelude.{◌≡◌, get_or, drop};
ghost use Rattle.octets.specs.Number.{number_at, big_endian};

// The octet at a place, 0 past the end.
pub fn octet_at(s: &[u8], at: usize) -> u8
    ensures { result ≡ get_or s.now at 0 }
{
    s.get(at).copied().unwrap_or(0)
}

// The octets from a place on, none past the end.
fn from_place(s: &[u8], at: usize) -> &[u8]
    ensures { result.now ≡ drop at s.now }
{
    s.get(at..).unwrap_or(&[])
}

// The number that the four octets from a place on stand for; those past the end count as 0.
pub fn u32_at(s: &[u8], at: usize) -> u32
    ensures { result ≡ number_at 4 s.now at }
{
    let rest = from_place(s, at);
    u32::from_be_bytes([
        octet_at(rest, 0),
        octet_at(rest, 1),
        octet_at(rest, 2),
        octet_at(rest, 3),
    ])
}

// The four octets of a number.
pub fn u32_octets(v: u32) -> [u8; 4]
    ensures { result ≡ big_endian 4 v }
{
    v.to_be_bytes()
}
