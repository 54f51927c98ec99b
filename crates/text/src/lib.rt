// Numbers and octets as text, in ASCII, written into lent buffers. Each writer is one of
// octets::write's kind: it answers the place behind what it wrote; where not all of it fits it writes
// nothing and answers the place it was given.
#![tactic(auto)]

pub mod decimal;
pub mod hex;

ghost use Rattle.std.specs.Prelude.{◌≡◌, ◌<◌};
ghost use Rattle.text.specs.Text.{digit};

// The character of a digit below 16, in lower case.
#[tactic(auto, unfolding(crate::specs::Text::digit))]
pub(crate) fn character(d: u8) -> u8
    requires { d < 16 }
    ensures { result ≡ digit d }
{
    match d {
        0..10 => b'0' + d,
        _ => b'a' + (d - 10),
    }
}
