// For C and Rust: the function of `mrt_records` that they call, under its own name. It promises the same.
#![tactic(auto)]

ghost use Rattle.std.specs.Prelude.{◌≡◌};
ghost use Rattle.mrt_records.specs.Records.{records_out};

use mrt_lent::Handed;

// Records from the position of a lent walk on, as long as each passes all checks and has ten places. What stands after the last
// one, `mrt_next` says.
#[unsafe(no_mangle)]
pub extern "C" fn mrt_records(s: &[u8], walk: &mut [u64], out: &mut [u64]) -> Handed
    ensures answer { (walk.new, (out.new, result))
        ≡ records_out s.now walk.old out.old }
{
    mrt_records::mrt_records(s, walk, out)
}
