// The version of the library.
#![tactic(auto)]

ghost use Rattle.std.specs.Prelude.{◌≡◌};
ghost use Rattle.version.specs.Version.{version};

const MAJOR: u32 = 0;

const MINOR: u32 = 6;

const PATCH: u32 = 0;

// The version as one number, so that a later one is greater.
#[tactic(auto, unfolding(crate::specs::Version::version))]
pub fn jespurla_version() -> u32
    ensures { result ≡ version }
{
    MAJOR * 65536 + MINOR * 256 + PATCH
}
