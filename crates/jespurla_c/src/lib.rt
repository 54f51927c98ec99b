// The library as C has it: each call of include/jespurla.h under its name there, over the function of
// the same name in the crate that it is proved in. Every export states that function's clauses again
// and does nothing but call it. A slice is a pointer and a length in C, and a struct goes by value.
#![tactic(auto)]

mod desk;
mod jobs;
mod leases;
mod options;
mod requests;
mod requests_lent;
mod routers;
mod zones;

ghost use Rattle.std.specs.Prelude.{◌≡◌};
ghost use Rattle.version.specs.Version.{version};

// The version as one number, so that a later one is greater.
#[unsafe(no_mangle)]
pub extern "C" fn jespurla_version() -> u32
    ensures { result ≡ version }
{
    version::jespurla_version()
}
