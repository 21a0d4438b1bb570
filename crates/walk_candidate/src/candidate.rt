// The test that a scan puts the record at an offset to.
ghost use Rattle.std.specs.Prelude.{◌≡◌};
ghost use Rattle.rules.specs.Ask.{over};
ghost use Rattle.header.specs.Read.{header_at, heading_of};
ghost use Rattle.walk.specs.Evidence.{evidence_number};
ghost use Rattle.walk_judge.specs.Record.{judge_at};
ghost use Rattle.walk_candidate.specs.Candidate.{candidacy, candidate_at, taken_up, evidence, plausible, standing};

use crate::Standing;
use header::{CommonHeader, Headed};
use walk::Evidence;

#[tactic(auto, using(crate::proofs::Kept::head_kept))]
pub fn candidate_at(s: &[u8], at: usize) -> Option<Standing>
    ensures answer { candidacy result ≡ over s.now (candidate_at at) }
{
    let head = header::read_header(s, at).ok()?;
    if !is_plausible(head.header) {
        return None;
    }
    take_up(s, at, head)
}

// The record of a header that has been read there, where it is framed and its body passes.
#[tactic(auto, using(crate::proofs::Kept::frame_starts, crate::proofs::Kept::frame_ends))]
fn take_up(s: &[u8], at: usize, head: Headed) -> Option<Standing>
    requires { heading_of head ≡ header_at s.now at }
    ensures { candidacy result ≡ standing (over s.now (judge_at at)) }
{
    let frame = header::frame_of(s, at, head).ok()?;
    let h = frame.head.header;
    let body = &s[frame.body..frame.end];
    walk_judge::check_body(body, h.kind, h.subtype, h.length).ok()?;
    Some(Standing {
        evidence: evidence_of(h.subtype),
        end: frame.end,
    })
}

// What the header alone decides.
#[tactic(auto, unfolding(crate::specs::Candidate::plausible))]
fn is_plausible(h: CommonHeader) -> bool
    ensures { result ≡ plausible h.kind h.subtype h.length.0 h.micros }
{
    is_taken_up(h.kind)
        && h.length.0 <= 65599
        && h.micros < 1000000
        && walk_checks::is_carried(h.subtype)
}

#[tactic(auto, unfolding(crate::specs::Candidate::taken_up))]
fn is_taken_up(kind: u16) -> bool
    ensures { result ≡ taken_up kind }
{
    matches!(kind, 16 | 17)
}

#[tactic(auto, unfolding(crate::specs::Candidate::evidence))]
fn evidence_of(subtype: u16) -> Evidence
    ensures { evidence_number result ≡ evidence subtype }
{
    if walk_checks::is_state_change(subtype) {
        Evidence::StateChange
    } else {
        Evidence::Message
    }
}
