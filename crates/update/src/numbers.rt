// The numbers of a request.
ghost use Rattle.std.specs.Prelude.{◌≡◌};
ghost use Rattle.update.specs.Meaning.{listed};

// Whether the numbers are listed.
#[tactic(auto, unfolding(crate::specs::Meaning::listed))]
pub fn is_listed(family: u8, policy: u8) -> bool
    ensures { result ≡ listed family policy }
{
    matches!(family, 4 | 6) && policy <= 2
}
