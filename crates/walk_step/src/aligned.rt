// The try at a refused record's own end.
ghost use Rattle.std.specs.Prelude.{◌≡◌};
ghost use Rattle.rules.specs.Ask.{over};
ghost use Rattle.walk.specs.Step.{aligned};
ghost use Rattle.walk_judge.specs.Record.{judge_at};
ghost use Rattle.walk_step.specs.Answers.{tried};

use walk_judge::Verdict;

// How many records pass from an offset on: as many as are asked for, or fewer where the stream ends exactly after them.
#[tactic(auto, using(crate::proofs::Reading::goes_first, crate::proofs::Reading::goes_end, crate::proofs::Reading::goes_enough))]
pub(crate) fn try_own_end(s: &[u8], at: usize, asked: u8) -> Option<u8>
    ensures { tried result ≡ over s.now (aligned judge_at asked 0 at) }
{
    let n = s.len();
    let mut p = at;
    for passed in 0..asked {
        if n <= p {
            return Some(passed);
        }
        let Verdict::Fit(frame) = walk_judge::judge_at(s, p) else {
            return None;
        };
        p = frame.end;
    }
    Some(asked)
}
