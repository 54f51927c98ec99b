// What requests answer, and the numbers of that: RFC 2136's response codes, and one of our own, above
// every code of its.
ghost use Rattle.std.specs.Prelude.{◌≡◌};
ghost use Rattle.request.specs.Promise.{number_of};
ghost use Rattle.request.specs.Answers.{means};

pub const SUCCESS: u32 = 0;

pub const NXDOMAIN: u32 = 3;

pub const YXDOMAIN: u32 = 6;

pub const YXRRSET: u32 = 7;

pub const NXRRSET: u32 = 8;

pub const NO_ROOM: u32 = 256;

#[derive(Clone, Copy, PartialEq, Eq)]
pub(crate) enum Answer {
    Success,
    NxDomain,
    YxDomain,
    YxRrset,
    NxRrset,
    NoRoom,
}

#[tactic(auto, unfolding(crate::specs::Promise::number_of))]
impl From<Answer> for u32 {
    ghost from_gives = { λ a n. n ≡ number_of (means a) };

    fn from(answer: Answer) -> u32 {
        match answer {
            Answer::Success => SUCCESS,
            Answer::NxDomain => NXDOMAIN,
            Answer::YxDomain => YXDOMAIN,
            Answer::YxRrset => YXRRSET,
            Answer::NxRrset => NXRRSET,
            Answer::NoRoom => NO_ROOM,
        }
    }
}
