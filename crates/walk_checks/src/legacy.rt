// Type 5: the stored length alone, by subtype.
ghost use Rattle.std.specs.Prelude.{◌≡◌};
ghost use Rattle.answer.specs.Refusal.{outcome_number};
ghost use Rattle.walk_checks.specs.Legacy.{legacy_bounds, legacy};

use crate::Bounds;
use answer::Refusal;
use header::StoredLength;

// The octets of the body are not looked at.
#[tactic(auto, unfolding(crate::specs::Legacy::legacy))]
pub fn check_legacy(subtype: u16, stored: StoredLength) -> Result<(), Refusal>
    ensures answer { outcome_number result ≡ legacy subtype stored.0 }
{
    let b = legacy_bounds(subtype);
    if b.high < b.low {
        return Err(Refusal::OtherSubtype);
    }
    if !b.hold(stored.0) {
        return Err(Refusal::BodyNotMet);
    }
    Ok(())
}

// The empty range: low above high.
const NONE: [u32; 2] = [1, 0];

// The least and the most octets of a body, a row for each subtype.
const LEGACY_BOUNDS: [[u32; 2]; 8] = [
    NONE,
    [16, 65535],
    NONE,
    [10, 10],
    NONE,
    [22, 4089],
    [14, 65535],
    [12, 12],
];

fn legacy_bounds(subtype: u16) -> Bounds
    ensures { result ≡ legacy_bounds subtype }
{
    let row = LEGACY_BOUNDS.get(usize::from(subtype)).copied();
    let [low, high] = row.unwrap_or(NONE);
    Bounds { low, high }
}
