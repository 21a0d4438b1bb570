// The judgement of the record at an offset.
ghost use Rattle.std.specs.Prelude.{◌≡◌};
ghost use Rattle.rules.specs.Ask.{over};
ghost use Rattle.walk_judge.specs.Record.{judge_at, judged, judging, judgement_at};

use crate::Verdict;
use crate::body::check_body;
use answer::Refusal;
use header::Located;

// The record at an offset of a stream that passes all checks.
#[tactic(auto, using(crate::proofs::Judging::judgement_beyond))]
pub fn judge_record(s: &[u8], at: usize) -> Result<Located, Refusal>
    ensures answer { judging result ≡ judgement_at s.now at }
{
    if s.len() < at {
        return Err(Refusal::Beyond);
    }
    match judge_at(s, at) {
        Verdict::Fit(frame) => Ok(Located { start: at, frame }),
        Verdict::Off { refusal, end: _ } | Verdict::Cut(refusal) => Err(refusal),
    }
}

// The same as the walk asks it: a record that is refused keeps its end, and past the stream too few octets are left.
#[tactic(auto, using(crate::proofs::Soundness::judge_beyond))]
pub fn judge_at(s: &[u8], at: usize) -> Verdict
    ensures answer { judged result ≡ over s.now (judge_at at) }
{
    if s.len() < at {
        return Verdict::Cut(Refusal::TruncatedHeader);
    }
    let frame = match header::frame_record(s, at) {
        Ok(frame) => frame,
        Err(refusal) => return Verdict::Cut(refusal),
    };
    let body = &s[frame.body..frame.end];
    let header = frame.head.header;
    match check_body(body, header.kind, header.subtype, header.length) {
        Ok(()) => Verdict::Fit(frame),
        Err(refusal) => Verdict::Off {
            refusal,
            end: frame.end,
        },
    }
}
