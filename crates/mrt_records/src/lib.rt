// Records of a walk across the boundary, many by one call. Apart from the walk: the judgement then has one caller, which the
// compiler takes it into, so that no record goes through memory but the lent places.
#![tactic(auto)]

ghost use Rattle.std.specs.Prelude.{◌≡◌};
ghost use Rattle.mrt_records.specs.Records.{record_at, records_out};

use header::Located;
use mrt_lent::{Handed, Source};
use walk_judge::Verdict;

// The records of a stream.
#[derive(Clone, Copy)]
struct Records<'a> {
    s: &'a [u8],
}

impl Source<10> for Records<'_> {
    type At = usize;

    ghost turn = { λ r. record_at r.s.now };

    // A record that passes all checks, and where it ends.
    #[tactic(auto, unfolding(crate::specs::Records::record_at))]
    fn turn(&self, p: usize) -> Option<([u64; 10], usize)> {
        match walk_judge::judge_at(self.s, p) {
            Verdict::Fit(frame) => {
                let v = mrt_lent::record_values(1, Located { start: p, frame });
                Some((v, frame.end))
            }
            Verdict::Off { .. } | Verdict::Cut(_) => None,
        }
    }
}

// Records from the position of a lent walk on, as long as each passes all checks and has ten places. What stands after the last
// one, `mrt_next` says.
#[tactic(auto, unfolding(mrt_lent::specs::Walks::on_walk, mrt_lent::specs::Walks::holds_walk))]
pub fn mrt_records(s: &[u8], walk: &mut [u64], out: &mut [u64]) -> Handed
    ensures answer { (walk.new, (out.new, result))
        ≡ records_out s.now walk.old out.old }
{
    let w = match mrt_lent::lent_walk(s.len(), walk, out) {
        Ok(w) => w,
        Err(r) => return mrt_lent::none_handed(mrt_lent::refusal(r)),
    };
    if w.finished {
        // no row, and no refusal either: 0 has no name among those
        return mrt_lent::none_handed(0);
    }
    let taken = mrt_lent::hand_rows(out, &Records { s }, w.position);
    walk[0] = taken.next as u64;
    Handed {
        count: taken.count,
        refusal: 0,
    }
}
