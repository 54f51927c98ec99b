// What stands at a name of a zone that is lent: 23,936 octets in the layout of the C struct, which
// are only read.

#![tactic(auto)]

ghost use Rattle.std.specs.Prelude.{◌≡◌, cond, ◌&&◌};
ghost use Rattle.request.specs.Answers.{refused};
ghost use Rattle.zonefind.specs.Find.{find_answer};
ghost use Rattle.zonefind.specs.Inner.{Located};

use dname::name;
use dname::name::Name;
use lentzone::{place, survey};
use request::refusal::Refusal;
use zone::entry::Entry;
use zone::survey::Survey;

// refusal: the number of document 01's table, 0 where there is none. entry: the place of the name,
// octet for octet; zeros where the name is absent, and beside a refusal.
#[repr(C)]
#[derive(Clone, Copy)]
pub struct FindAnswer {
    pub refusal: u32,
    pub entry: Entry,
}

// How many places there are: none has this number, so zeros stand there.
const PLACES: usize = 64;

// The refusals in their order: the zone's form, then the name.
fn check(s: Survey, full: bool) -> Result<(), Refusal>
    ensures { refused result ≡ cond (s.inorder && s.distinct) (cond full 0 11) 17 }
{
    if !(s.inorder && s.distinct) {
        return Err(Refusal::Form);
    }
    if !full {
        return Err(Refusal::Name);
    }
    Ok(())
}

// Where the name stands, if it does. A call of its own, so that the name is not copied for it.
#[inline(never)]
fn locate(octets: &[u8], name: &[u8]) -> Result<Option<usize>, Refusal>
    ensures { Located octets.now name.now result }
{
    let s = survey::survey_in(octets, name);
    check(s, name::is_full_name(name))?;
    Ok(s.found)
}

// What stands at a name.
pub fn jespurla_zone_find(octets: &[u8], name: Name) -> FindAnswer
    ensures { result ≡ find_answer octets.now name }
{
    let (refusal, place) = match locate(octets, &name.octets[..name.len as usize]) {
        Err(refusal) => (u32::from(refusal), PLACES),
        Ok(place) => (0, place.unwrap_or(PLACES)),
    };
    FindAnswer {
        refusal,
        entry: place::entry_at(octets, place),
    }
}
