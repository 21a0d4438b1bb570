// Judgements across the boundary: a record, a body, and a candidate of a scan.
#![tactic(auto)]

ghost use Rattle.std.specs.Prelude.{◌≡◌};
ghost use Rattle.walk_judge.specs.Body.{check};
ghost use Rattle.walk_judge.specs.Record.{judgement_at};
ghost use Rattle.mrt_judge.specs.Judged.{judged_out, candidate_out};

use answer::Refusal;
use header::StoredLength;

// The record at an offset of a stream, judged.
pub fn mrt_judge(s: &[u8], at: usize, out: &mut [u64]) -> u32
    ensures answer { (out.new, result) ≡ judged_out out.old (judgement_at s.now at) }
{
    match walk_judge::judge_record(s, at) {
        Err(r) => mrt_lent::refusal(r),
        Ok(found) => {
            let v = mrt_lent::record_values(0, found);
            mrt_lent::hand_out(out, &v[1..])
        }
    }
}

// Whether a scan may take up the record at an offset of a stream.
pub fn mrt_candidate(s: &[u8], at: usize, out: &mut [u64]) -> u32
    ensures answer { (out.new, result) ≡ candidate_out out.old s.now at }
{
    if s.len() < at {
        return mrt_lent::refusal(Refusal::Beyond);
    }
    match walk_candidate::candidate_at(s, at) {
        None => {
            let v = [0u64; 3];
            mrt_lent::hand_out(out, &v)
        }
        Some(found) => {
            let v = [1, u8::from(found.evidence) as u64, found.end as u64];
            mrt_lent::hand_out(out, &v)
        }
    }
}

// The check of a body, by the type, subtype and stored length of its record.
pub fn mrt_check_body(body: &[u8], kind: u16, subtype: u16, stored: u32) -> u32
    ensures answer { result ≡ check kind subtype stored body.now }
{
    match walk_judge::check_body(body, kind, subtype, StoredLength(stored)) {
        Ok(()) => 0,
        Err(r) => mrt_lent::refusal(r),
    }
}
