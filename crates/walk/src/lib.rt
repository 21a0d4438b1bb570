// The walk's own state, and by what evidence it goes on after a gap. What a walk is over any way to judge a record is defined in
// specs/ and proved in proofs/.
#![tactic(auto)]

ghost use Rattle.std.specs.Prelude.{◌≡◌};
ghost use Rattle.walk.specs.Evidence.{evidence_number};
ghost use Rattle.walk.specs.Step.{fresh_walk};

// Where a walk stands in its stream, and whether it has given its last answer: a mark beside the position, since a finished walk has one.
#[derive(Clone, Copy)]
pub struct Walk {
    pub position: usize,
    pub finished: bool,
}

// A walk before its first call.
pub fn fresh() -> Walk
    ensures answer { result ≡ fresh_walk }
{
    Walk {
        position: 0,
        finished: false,
    }
}

// What a walk goes on at after a gap, with the number by which it is known outside; 1 is reserved.
#[derive(Clone, Copy)]
pub enum Evidence {
    // A record with a BGP message, which a scan has found.
    Message = 2,
    // A record with a state change, which a scan has found.
    StateChange = 3,
    // A refused record's own end.
    OwnEnd = 4,
    // The end of the stream.
    End = 5,
}

impl From<Evidence> for u8 {
    ghost from_gives = { λ e n. n ≡ evidence_number e };

    fn from(e: Evidence) -> u8 {
        e as u8
    }
}
