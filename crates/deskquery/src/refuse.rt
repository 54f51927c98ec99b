// The refusals of a query that is to be written: 19, then 32.
ghost use Rattle.std.specs.Prelude.{◌≡◌};
ghost use Rattle.deskquery.specs.Query.{first_refusal};
ghost use Rattle.deskquery.specs.Promise.{number_of, number_in};

// The octets that the longest query has, and that a buffer must have for any.
pub const ROOM: usize = 501;

// Why no query is written: its giaddr or its key is one that no box takes, or the buffer is too small.
#[derive(Clone, Copy, PartialEq, Eq, Debug)]
pub enum Refusal {
    NotTaken = 19,
    NoRoom = 32,
}

impl From<Refusal> for u32 {
    ghost from_gives = { λ r n. n ≡ number_of r };

    fn from(refusal: Refusal) -> u32 {
        refusal as u32
    }
}

// The first refusal that applies.
#[tactic(auto, unfolding(crate::specs::Query::first_refusal))]
pub(crate) fn first_refusal(giaddr: u32, taken: bool, room: usize) -> Result<(), Refusal>
    ensures { number_in result ≡ first_refusal giaddr taken room }
{
    if giaddr == 0 || !taken {
        return Err(Refusal::NotTaken);
    }
    if room < ROOM {
        return Err(Refusal::NoRoom);
    }
    Ok(())
}
