// A name by value, and whether it is full.
ghost use Rattle.std.specs.Prelude.{◌≡◌, take};
ghost use Rattle.dname.specs.Name.{name_of, is_full};

use crate::{Shape, shape_of};

// Octets from `len` on are ignored.
#[repr(C)]
#[derive(Clone, Copy)]
pub struct Name {
    pub octets: [u8; 255],
    pub len: u8,
}

// Whether the octets are a full name.
#[tactic(auto, unfolding(crate::specs::Name::is_full))]
pub fn is_full_name(o: &[u8]) -> bool
    ensures { result ≡ is_full o.now }
{
    matches!(shape_of(o), Shape::Full)
}

// Whether the first octets, as many as `len` says, are a full name; all of them where there are fewer.
// It is lent the octets of a name, since a name by value would be copied at each call.
pub fn are_full(o: &[u8], len: u8) -> bool
    ensures { result ≡ is_full (take len o.now) }
{
    let n = o.len().min(usize::from(len));
    is_full_name(&o[..n])
}

// Whether it is a full name.
pub fn is_full(n: Name) -> bool
    ensures { result ≡ is_full (name_of n) }
{
    are_full(&n.octets, n.len)
}
