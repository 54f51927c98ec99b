// Why a request is refused.
ghost use Rattle.std.specs.Prelude.{◌≡◌};
ghost use Rattle.dname.specs.Name.{name_of};
ghost use Rattle.request.specs.Answers.{refusal_number, refused};
ghost use Rattle.request.specs.Inner.{Refuses};

use crate::spelled;
use dname::name;
use dname::name::Name;
use update::numbers;
use zone::survey::Survey;

#[derive(Clone, Copy, PartialEq, Eq)]
pub enum Refusal {
    // the zone breaks its form, or the octets hold none
    Form,
    // a family or a policy that is not listed
    Number,
    // a name that is not full
    Name,
}

// The number of document 01's table.
impl From<Refusal> for u32 {
    ghost from_gives = { λ r n. n ≡ refusal_number r };

    fn from(refusal: Refusal) -> u32 {
        match refusal {
            Refusal::Form => 17,
            Refusal::Number => 18,
            Refusal::Name => 11,
        }
    }
}

// The refusals in their order, on the survey of a zone for the name.
pub(crate) fn check(s: Survey, name: &Name, family: u8, policy: u8) -> Result<(), Refusal>
    ensures { Refuses (name_of name.now) family policy s (refused result) }
{
    if !(s.inorder && s.distinct) {
        return Err(Refusal::Form);
    }
    if !numbers::is_listed(family, policy) {
        return Err(Refusal::Number);
    }
    if !name::is_full_name(spelled(name)) {
        return Err(Refusal::Name);
    }
    Ok(())
}
