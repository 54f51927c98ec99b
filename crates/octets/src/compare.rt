// Strings of octets compared.
ghost use Rattle.std.specs.Prelude.{◌≡◌, ◌==◌, ◌&&◌, true};
ghost use Rattle.std.specs.List.{fold, zip};
ghost use Rattle.octets.specs.Compare.{same_octets};

// Whether each two octets at one place are equal. All are looked at: with no early way out it compiles
// to vector code, and to a compare or two where the length is known.
fn agree(a: &[u8], b: &[u8]) -> bool
    ensures { result ≡ fold (λ same p. same && p.0 == p.1) true (zip a.now b.now) }
{
    a.iter().zip(b).fold(true, |same, (x, y)| same & (*x == *y))
}

// Whether two strings hold the same octets.
pub fn same(a: &[u8], b: &[u8]) -> bool
    ensures { result ≡ same_octets a.now b.now }
{
    a.len() == b.len() && agree(a, b)
}
