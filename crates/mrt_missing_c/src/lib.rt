// For C and Rust: the function of `mrt_missing` that they call, under its own name. It promises the same.
#![tactic(auto)]

ghost use Rattle.std.specs.Prelude.{◌≡◌};
ghost use Rattle.mrt_missing.specs.Missing.{missing_out};

// A record by its type, subtype and body, with counters that are lent as four numbers. Room for what is told is asked for before
// they are moved, so that nothing is lost.
#[unsafe(no_mangle)]
pub extern "C" fn mrt_missing(
    body: &[u8],
    kind: u16,
    subtype: u16,
    counters: &mut [u64],
    out: &mut [u64],
) -> u32
    ensures answer { (counters.new, (out.new, result))
        ≡ missing_out body.now kind subtype counters.old out.old }
{
    mrt_missing::mrt_missing(body, kind, subtype, counters, out)
}
