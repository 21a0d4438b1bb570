// One call of the walk, by value.
ghost use Rattle.std.specs.Prelude.{◌≡◌};
ghost use Rattle.rules.specs.Ask.{over};
ghost use Rattle.walk.specs.Step.{moved, stopped, step as step_rule};
ghost use Rattle.walk_judge.specs.Record.{judge_at};
ghost use Rattle.walk_candidate.specs.Candidate.{candidate_at};
ghost use Rattle.walk_step.specs.Answers.{said, stepped};

use crate::lost::Lost;
use crate::{Stepped, WalkAnswer};
use answer::Refusal;
use header::Located;
use walk::Walk;
use walk_judge::Verdict;

// The next answer of a walk over a whole stream, and the walk after it. The window and the asked number are the call's, by those names.
#[tactic(auto, using(crate::proofs::Reading::calls))]
pub fn step(s: &[u8], w: Walk, window: usize, asked: u8) -> Stepped
    ensures answer { stepped result ≡ over s.now (step_rule judge_at candidate_at w window asked) }
{
    let n = s.len();
    let p = w.position;
    if n < p {
        return Stepped {
            walk: w,
            answer: WalkAnswer::Refused(Refusal::Beyond),
        };
    }
    if w.finished || n == p {
        return stop(p, WalkAnswer::End(p));
    }
    let lost = Lost {
        s,
        start: p,
        window,
        asked,
    };
    match walk_judge::judge_at(s, p) {
        Verdict::Fit(frame) => go_on(frame.end, WalkAnswer::Record(Located { start: p, frame })),
        Verdict::Off { refusal, end } => lost.resume(refusal, end),
        Verdict::Cut(refusal) => lost.search(refusal),
    }
}

// The same on a walk that is lent: it is moved by the call.
pub fn next(s: &[u8], w: &mut Walk, window: usize, asked: u8) -> WalkAnswer
    ensures answer { record { walk = w.new; answer = said result }
        ≡ over s.now (step_rule judge_at candidate_at w.old window asked) }
{
    let before = *w;
    let after = step(s, before, window, asked);
    *w = after.walk;
    after.answer
}

// The walk goes on at p. This and the next one are two names for a mark, which is read at six places.
pub(crate) fn go_on(p: usize, answer: WalkAnswer) -> Stepped
    ensures { stepped result ≡ moved p (said answer) }
{
    Stepped {
        walk: Walk {
            position: p,
            finished: false,
        },
        answer,
    }
}

// The walk is finished at p.
pub(crate) fn stop(p: usize, answer: WalkAnswer) -> Stepped
    ensures { stepped result ≡ stopped p (said answer) }
{
    Stepped {
        walk: Walk {
            position: p,
            finished: true,
        },
        answer,
    }
}
