// RIB entries across the boundary, pushed many by one call. Apart from the other writing: the push then has one caller, which the
// compiler takes it into.
#![tactic(auto)]

ghost use Rattle.std.specs.Prelude.{◌≡◌};
ghost use Rattle.mrt_rib_rows.specs.Rows.{rows_out};

use answer::Refusal;
use mrt_lent::Handed;
use mrt_rib_build::{builder_in, builder_values};

// Rows of entries where a builder stands, which is lent as its three values and moved.
#[tactic(auto, unfolding(crate::specs::Rows::rows_out))]
pub fn mrt_push_entries(
    out: &mut [u8],
    subtype: u16,
    builder: &mut [u64],
    rows: &[u64],
    attributes: &[u8],
) -> Handed
    ensures answer { (out.new, (builder.new, result))
        ≡ rows_out out.old subtype builder.old rows.now attributes.now }
{
    let Some(b) = builder_in(builder) else {
        return mrt_lent::none_handed(mrt_lent::refusal(Refusal::Beyond));
    };
    match rib_write::push_entries(out, subtype, b, rows, attributes) {
        Err(r) => mrt_lent::none_handed(mrt_lent::refusal(r)),
        Ok(pushed) => {
            mrt_lent::put_values(builder, &builder_values(pushed.builder));
            Handed {
                count: pushed.rows as u64,
                refusal: 0,
            }
        }
    }
}
