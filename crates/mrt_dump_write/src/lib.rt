// TABLE_DUMP bodies across the boundary, written.
#![tactic(auto)]

ghost use Rattle.std.specs.Prelude.{◌≡◌};
ghost use Rattle.mrt_lent.specs.Writer.{written_out};
ghost use Rattle.mrt_dump_write.specs.Write.{write_from};

use answer::Refusal;
use dump_layout::Dump;
use mrt_lent::Wrote;

// A body at the front of the lent output.
pub fn mrt_write_table_dump(
    out: &mut [u8],
    subtype: u16,
    view: u16,
    sequence: u16,
    prefix: &[u8],
    bits: u8,
    status: u8,
    originated: u32,
    peer: &[u8],
    asn: u32,
    attributes: &[u8],
) -> Wrote
    ensures answer { (out.new, result) ≡ written_out (write_from out.old subtype view sequence prefix.now
        bits status originated peer.now asn attributes.now) }
{
    if prefix.len() < 16 || peer.len() < 16 {
        return mrt_lent::wrote_of(Err(Refusal::Beyond));
    }
    let d = Dump {
        view,
        sequence,
        prefix: mrt_lent::sixteen(prefix),
        bits,
        status,
        originated,
        peer: mrt_lent::sixteen(peer),
        asn,
    };
    mrt_lent::wrote_of(dump_write::write_dump(out, subtype, d, attributes))
}
