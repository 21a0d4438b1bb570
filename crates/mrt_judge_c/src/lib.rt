// For C and Rust: the functions of `mrt_judge` that they call, under their own names. Each promises the same.
#![tactic(auto)]

ghost use Rattle.std.specs.Prelude.{◌≡◌};
ghost use Rattle.walk_judge.specs.Body.{check};
ghost use Rattle.walk_judge.specs.Record.{judgement_at};
ghost use Rattle.mrt_judge.specs.Judged.{judged_out, candidate_out};

// The record at an offset of a stream, judged.
#[unsafe(no_mangle)]
pub extern "C" fn mrt_judge(s: &[u8], at: usize, out: &mut [u64]) -> u32
    ensures answer { (out.new, result) ≡ judged_out out.old (judgement_at s.now at) }
{
    mrt_judge::mrt_judge(s, at, out)
}

// Whether a scan may take up the record at an offset of a stream.
#[unsafe(no_mangle)]
pub extern "C" fn mrt_candidate(s: &[u8], at: usize, out: &mut [u64]) -> u32
    ensures answer { (out.new, result) ≡ candidate_out out.old s.now at }
{
    mrt_judge::mrt_candidate(s, at, out)
}

// The check of a body, by the type, subtype and stored length of its record.
#[unsafe(no_mangle)]
pub extern "C" fn mrt_check_body(body: &[u8], kind: u16, subtype: u16, stored: u32) -> u32
    ensures answer { result ≡ check kind subtype stored body.now }
{
    mrt_judge::mrt_check_body(body, kind, subtype, stored)
}
