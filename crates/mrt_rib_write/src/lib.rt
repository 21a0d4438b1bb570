// RIB bodies across the boundary, written.
#![tactic(auto)]

ghost use Rattle.std.specs.Prelude.{◌≡◌};
ghost use Rattle.rib_add.specs.Add.{add_entry};
ghost use Rattle.mrt_lent.specs.Writer.{written_out};
ghost use Rattle.mrt_rib_write.specs.Begin.{begin_from};

use answer::Refusal;
use mrt_lent::Wrote;
use rib_write::NewEntry;

// A body with no entry at the front of the lent output.
#[tactic(auto, using(mrt_lent::proofs::Writing::returns_written), unfolding(crate::specs::Begin::begin_from))]
pub fn mrt_begin_rib(out: &mut [u8], subtype: u16, sequence: u32, bits: u8, prefix: &[u8]) -> Wrote
    ensures answer { (out.new, result) ≡ written_out (begin_from out.old subtype sequence bits prefix.now) }
{
    if prefix.len() < 16 {
        return mrt_lent::wrote_of(Err(Refusal::Beyond));
    }
    let octets = mrt_lent::sixteen(prefix);
    mrt_lent::wrote_of(rib_begin::begin_rib(out, subtype, sequence, bits, octets))
}

// One more entry in a body that fills the first len octets of the lent output.
#[tactic(auto, using(mrt_lent::proofs::Writing::returns_written))]
pub fn mrt_add_entry(
    out: &mut [u8],
    len: usize,
    subtype: u16,
    peer: u16,
    originated: u32,
    path: u32,
    attributes: &[u8],
) -> Wrote
    ensures answer { (out.new, result) ≡ written_out (add_entry out.old len subtype
        (record { peer = peer; originated = originated; path = path }) attributes.now) }
{
    let e = NewEntry {
        peer,
        originated,
        path,
    };
    mrt_lent::wrote_of(rib_add::add_entry(out, len, subtype, e, attributes))
}
