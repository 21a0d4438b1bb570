// The walk across the boundary.
#![tactic(auto)]

ghost use Rattle.std.specs.Prelude.{◌≡◌, ◌≤◌, length};
ghost use Rattle.walk_step.specs.Answers.{said};
ghost use Rattle.rules.specs.Ask.{over};
ghost use Rattle.walk.specs.Step.{step, refused};
ghost use Rattle.walk_judge.specs.Record.{judge_at};
ghost use Rattle.walk_candidate.specs.Candidate.{candidate_at};
ghost use Rattle.mrt_walk.specs.Next.{answer_out, stepped_out, next_out};

use header::Located;
use mrt_lent::{mark_of, put_values, record_values, refusal};
use walk::Walk;
use walk_judge::Verdict;
use walk_step::WalkAnswer;

// The next answer of a walk that is lent as its position and its finished mark. Room for every answer is asked for before the
// walk moves, so that no answer is lost.
// A record that passes is the usual answer: it is handed out first, and needs nothing of the search.
#[tactic(auto, unfolding(mrt_lent::specs::Walks::on_walk, mrt_lent::specs::Walks::holds_walk))]
pub fn mrt_next(s: &[u8], walk: &mut [u64], window: usize, asked: u8, out: &mut [u64]) -> u32
    ensures answer { (walk.new, (out.new, result))
        ≡ next_out s.now walk.old window asked out.old }
{
    let w = match mrt_lent::lent_walk(s.len(), walk, out) {
        Ok(w) => w,
        Err(r) => return refusal(r),
    };
    if !w.finished {
        if let Verdict::Fit(frame) = walk_judge::judge_at(s, w.position) {
            walk[0] = frame.end as u64;
            let found = Located {
                start: w.position,
                frame,
            };
            put_values(out, &record_values(1, found));
            return 0;
        }
    }
    take_step(s, w, walk, window, asked, out)
}

// A step of the walk that is held in two places, whatever its answer, and the walk moved.
#[tactic(auto, unfolding(octets::specs::Octets::patch))]
fn take_step(s: &[u8], w: Walk, walk: &mut [u64], window: usize, asked: u8, out: &mut [u64]) -> u32
    requires { 2 ≤ length walk.old }
    ensures { (walk.new, (out.new, result))
        ≡ stepped_out walk.old out.old (over s.now (step judge_at candidate_at w window asked)) }
{
    let after = walk_step::step(s, w, window, asked);
    let moved = after.walk;
    walk[0] = moved.position as u64;
    walk[1] = mark_of(moved.finished);
    put_answer(out, after.answer)
}

// The values of an answer, and what is returned for it.
fn put_answer(out: &mut [u64], a: WalkAnswer) -> u32
    ensures { (out.new, result) ≡ answer_out out.old (said a) }
{
    match a {
        WalkAnswer::Record(found) => {
            put_values(out, &record_values(1, found));
            0
        }
        WalkAnswer::Gap {
            start,
            end,
            refusal: why,
            evidence,
            confirmed,
        } => {
            let v = [
                2,
                start as u64,
                end as u64,
                refusal(why) as u64,
                u8::from(evidence) as u64,
                confirmed as u64,
            ];
            put_values(out, &v);
            0
        }
        WalkAnswer::End(p) => {
            let v = [3, p as u64];
            put_values(out, &v);
            0
        }
        WalkAnswer::Window {
            start,
            window,
            refusal: why,
        } => put_refusal(out, 11, start, window, refusal(why)),
        // A walk within its stream has no such answer.
        WalkAnswer::Refused(why) => put_refusal(out, refusal(why), 0, 0, 0),
    }
}

// The values of a refusal, and its number.
fn put_refusal(out: &mut [u64], number: u32, start: usize, window: usize, why: u32) -> u32
    ensures { (out.new, result) ≡ answer_out out.old (refused number start window why) }
{
    let v = [4, start as u64, window as u64, why as u64];
    put_values(out, &v);
    number
}
