// Why a name option is not answered.
ghost use Rattle.std.specs.Prelude.{◌≡◌};
ghost use Rattle.fqdn.specs.Answer.{number_of};

#[derive(Clone, Copy, PartialEq, Eq, Debug)]
pub enum Refusal {
    // The client's flags are refused, or the option has no octet.
    BadFlags,
    // The suffix is no full name, or the option's name is none.
    BadName,
    // No octet stands behind the flags.
    NoName,
    // The completed name is longer than 255 octets.
    LongName,
    // The reply buffer has less than 256 octets.
    NoRoom,
}

// The number that the caller in C reads.
impl From<Refusal> for u32 {
    ghost from_gives = { λ r n. n ≡ number_of r };

    fn from(refusal: Refusal) -> u32 {
        match refusal {
            Refusal::BadFlags => 10,
            Refusal::BadName => 11,
            Refusal::NoName => 12,
            Refusal::LongName => 13,
            Refusal::NoRoom => 14,
        }
    }
}
