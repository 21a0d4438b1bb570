// For C and Rust: the function of `mrt_walk` that they call, under its own name. It promises the same.
#![tactic(auto)]

ghost use Rattle.std.specs.Prelude.{◌≡◌};
ghost use Rattle.mrt_walk.specs.Next.{next_out};

// The next answer of a walk that is lent as its position and its finished mark. Room for every answer is asked for before the
// walk moves, so that no answer is lost.
#[unsafe(no_mangle)]
pub extern "C" fn mrt_next(
    s: &[u8],
    walk: &mut [u64],
    window: usize,
    asked: u8,
    out: &mut [u64],
) -> u32
    ensures answer { (walk.new, (out.new, result))
        ≡ next_out s.now walk.old window asked out.old }
{
    mrt_walk::mrt_next(s, walk, window, asked, out)
}
