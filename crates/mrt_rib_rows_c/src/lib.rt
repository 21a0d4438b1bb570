// For C and Rust: the function of `mrt_rib_rows` that they call, under its own name. It promises the same.
#![tactic(auto)]

ghost use Rattle.std.specs.Prelude.{◌≡◌};
ghost use Rattle.mrt_rib_rows.specs.Rows.{rows_out};

use mrt_lent::Handed;

// Rows of entries where a builder stands, which is lent as its three values and moved.
#[unsafe(no_mangle)]
pub extern "C" fn mrt_push_entries(
    out: &mut [u8],
    subtype: u16,
    builder: &mut [u64],
    rows: &[u64],
    attributes: &[u8],
) -> Handed
    ensures answer { (out.new, (builder.new, result))
        ≡ rows_out out.old subtype builder.old rows.now attributes.now }
{
    mrt_rib_rows::mrt_push_entries(out, subtype, builder, rows, attributes)
}
