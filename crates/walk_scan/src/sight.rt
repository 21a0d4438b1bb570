// The scan for a place to take up again.
ghost use Rattle.std.specs.Prelude.{◌≡◌, suc, ◌-◌, min};
ghost use Rattle.rules.specs.Ask.{over};
ghost use Rattle.walk.specs.Step.{scan as scan_rule};
ghost use Rattle.walk_candidate.specs.Candidate.{candidate_at};
ghost use Rattle.walk_scan.specs.Sight.{sighted};

use crate::Found;
use crate::ahead::Ahead;
use walk::Evidence;

// The first distance from p, up to the window, where a candidate stands with `more` straight after it. The first of a chain goes
// through the same turn as the others: the test then has one caller, which the compiler takes it into.
#[tactic(auto, using(crate::proofs::Scans::turns))]
pub fn scan(s: &[u8], p: usize, window: usize, more: u8) -> Option<Found>
    ensures answer { sighted result ≡ over s.now (scan_rule candidate_at more (suc p) window) }
{
    let last = reach(s.len(), p, window);
    let mut d = 0;
    'distance: loop {
        let ahead = Ahead {
            s,
            p,
            from: d,
            last,
        };
        d = ahead.pass_over()?;
        let offset = p + d;
        let mut evidence = Evidence::Message;
        let mut at = offset;
        for i in 0..usize::from(more) + 1 {
            let Some(found) = walk_candidate::candidate_at(s, at) else {
                continue 'distance;
            };
            if i == 0 {
                evidence = found.evidence;
            }
            at = found.end;
        }
        return Some(Found { offset, evidence });
    }
}

// The last distance from p that a scan of n octets looks at: no header has room beyond it.
fn reach(n: usize, p: usize, window: usize) -> usize
    ensures { result ≡ min window (n - p - 12) }
{
    window.min(n.saturating_sub(p).saturating_sub(12))
}
