// Which entry of a full list is evicted, looked for from the back.
ghost use Rattle.std.specs.Prelude.{◌≡◌};
ghost use Rattle.entries.specs.Places.{earlier_of};

use clock::Moment;

// The entry to be evicted among those from a place on: its place and when it expires.
#[derive(Clone, Copy, PartialEq, Eq, Debug)]
pub struct Candidate {
    pub at: usize,
    pub expires: Moment,
}

// The candidate from one place further ahead on: the entry there, if it expires before the candidate
// from here on.
pub fn earlier_of(c: Candidate, expires: Moment, at: usize) -> Candidate
    ensures { result ≡ earlier_of c expires at }
{
    if c.expires <= expires {
        c
    } else {
        Candidate { at, expires }
    }
}
