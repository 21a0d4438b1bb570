// RIB bodies across the boundary, built entry by entry. Apart from the other writers: the push is then the one caller of what it
// calls, which the compiler takes in, so that no builder goes through memory.
#![tactic(auto)]

ghost use Rattle.std.specs.Prelude.{◌≡◌, ◌∷◌, [], cond};
ghost use Rattle.rib_add.specs.Add.{open_of};
ghost use Rattle.mrt_rib_build.specs.Build.{opened_out, holds_builder, builder_in, push_out};

use answer::Refusal;
use rib_write::{Builder, NewEntry};

// The builder that lent places hold: three of them, with a count that a body may have.
#[tactic(auto, unfolding(crate::specs::Build::holds_builder))]
pub fn builder_in(places: &[u64]) -> Option<Builder>
    ensures { result ≡ cond (holds_builder places.now) (Some (builder_in places.now)) None }
{
    if places.len() < 3 {
        return None;
    }
    let count = u16::try_from(places[2]).ok()?;
    Some(Builder {
        len: places[0] as usize,
        at: places[1] as usize,
        count,
    })
}

// The values of a builder, in the order of its fields.
pub fn builder_values(b: Builder) -> [u64; 3]
    ensures { result ≡ b.len ∷ b.at ∷ b.count ∷ [] }
{
    [b.len as u64, b.at as u64, b.count as u64]
}

// A builder at the end of a whole body.
#[tactic(auto, using(mrt_lent::proofs::Handing::export_refused))]
pub fn mrt_open_rib(body: &[u8], subtype: u16, out: &mut [u64]) -> u32
    ensures answer { (out.new, result) ≡ opened_out out.old (open_of body.now subtype) }
{
    match rib_add::open_rib(body, subtype) {
        Err(r) => mrt_lent::refusal(r),
        Ok(b) => mrt_lent::hand_out(out, &builder_values(b)),
    }
}

// One more entry where a builder stands, which is lent as its three values and moved.
#[tactic(auto, using(mrt_lent::proofs::Handing::export_refused), unfolding(crate::specs::Build::push_out))]
pub fn mrt_push_entry(
    out: &mut [u8],
    subtype: u16,
    builder: &mut [u64],
    peer: u16,
    originated: u32,
    path: u32,
    attributes: &[u8],
) -> u32
    ensures answer { (out.new, (builder.new, result))
        ≡ push_out out.old subtype builder.old
        (record { peer = peer; originated = originated; path = path }) attributes.now }
{
    let Some(b) = builder_in(builder) else {
        return mrt_lent::refusal(Refusal::Beyond);
    };
    let e = NewEntry {
        peer,
        originated,
        path,
    };
    match rib_write::push_entry(out, subtype, b, e, attributes) {
        Err(r) => mrt_lent::refusal(r),
        Ok(next) => mrt_lent::hand_out(builder, &builder_values(next)),
    }
}
