// Capital letters folded, as names are compared.
ghost use Rattle.std.specs.Prelude.{◌≡◌, ◌==◌};
ghost use Rattle.std.specs.List.{list_all, zip};
ghost use Rattle.dname.specs.Name.{lower as folded, same_name};

// The least capital letter and the greatest, and how far above it the small one stands.
const CAPITAL_A: u8 = b'A';

const CAPITAL_Z: u8 = b'Z';

const TO_SMALL: u8 = b'a' - b'A';

// An octet as it counts in a name: a capital letter counts as the small one.
fn lower(x: u8) -> u8
    ensures { result ≡ folded x }
{
    match x {
        CAPITAL_A..=CAPITAL_Z => x + TO_SMALL,
        _ => x,
    }
}

// Whether each two octets at one place count as the same.
fn agree(a: &[u8], b: &[u8]) -> bool
    ensures { result ≡ list_all (λ p. folded p.0 == folded p.1) (zip a.now b.now) }
{
    a.iter().zip(b).all(|(x, y)| lower(*x) == lower(*y))
}

// Whether two names are equal, octet by octet. Names that are not mostly differ in their first octets.
pub(crate) fn same_folded(a: &[u8], b: &[u8]) -> bool
    ensures { result ≡ same_name a.now b.now }
{
    a.len() == b.len() && agree(a, b)
}
