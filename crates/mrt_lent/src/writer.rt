// A writer's answer.
ghost use Rattle.std.specs.Prelude.{◌≡◌};
ghost use Rattle.mrt_lent.specs.Writer.{wrote_of};

use crate::Wrote;
use crate::hand::refusal;
use answer::Refusal;

// A writer's answer, as it is returned: the definition of this name.
pub fn wrote_of(w: Result<usize, Refusal>) -> Wrote
    ensures { result ≡ wrote_of w }
{
    match w {
        Ok(n) => Wrote {
            octets: n as u64,
            refusal: 0,
        },
        Err(r) => Wrote {
            octets: 0,
            refusal: refusal(r),
        },
    }
}
