// Why a call cannot serve. A call answers `Result<_, Refusal>`, a writer how many octets it has written.
#![tactic(auto)]

ghost use Rattle.std.specs.Prelude.{◌≡◌};
ghost use Rattle.answer.specs.Refusal.{number_of};

// Each refusal with the number by which it is known outside.
#[derive(Clone, Copy, PartialEq, Eq)]
pub enum Refusal {
    TruncatedHeader = 1,
    UnknownType = 2,
    ShortLength = 3,
    TruncatedBody = 4,
    NotCarried = 5,
    OtherSubtype = 6,
    BodyNotMet = 7,
    Beyond = 8,
    NoRoom = 9,
    TooLarge = 10,
}

impl From<Refusal> for u8 {
    ghost from_gives = { λ r n. n ≡ number_of r };

    fn from(r: Refusal) -> u8 {
        r as u8
    }
}

impl From<Refusal> for u32 {
    ghost from_gives = { λ r n. n ≡ number_of r };

    fn from(r: Refusal) -> u32 {
        r as u32
    }
}
