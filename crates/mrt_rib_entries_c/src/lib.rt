// For C and Rust: the function of `mrt_rib_entries` that they call, under its own name. It promises the same.
#![tactic(auto)]

ghost use Rattle.std.specs.Prelude.{◌≡◌};
ghost use Rattle.mrt_rib_entries.specs.Entries.{entries_out};

use mrt_lent::Handed;

// Entries from a lent cursor on, as long as there are entries and each has five places. The cursor is moved past them.
#[unsafe(no_mangle)]
pub extern "C" fn mrt_rib_entries(
    body: &[u8],
    subtype: u16,
    cursor: &mut [u64],
    out: &mut [u64],
) -> Handed
    ensures answer { (cursor.new, (out.new, result))
        ≡ entries_out body.now subtype cursor.old out.old }
{
    mrt_rib_entries::mrt_rib_entries(body, subtype, cursor, out)
}
