// For C and Rust: the function of `mrt_dump_write` that they call, under its own name. It promises the same.
#![tactic(auto)]

ghost use Rattle.std.specs.Prelude.{◌≡◌};
ghost use Rattle.mrt_lent.specs.Writer.{written_out};
ghost use Rattle.mrt_dump_write.specs.Write.{write_from};

use mrt_lent::Wrote;

// A body at the front of the lent output.
#[unsafe(no_mangle)]
pub extern "C" fn mrt_write_table_dump(
    out: &mut [u8],
    subtype: u16,
    view: u16,
    sequence: u16,
    prefix: &[u8],
    bits: u8,
    status: u8,
    originated: u32,
    peer: &[u8],
    asn: u32,
    attributes: &[u8],
) -> Wrote
    ensures answer { (out.new, result) ≡ written_out (write_from out.old subtype view sequence prefix.now
        bits status originated peer.now asn attributes.now) }
{
    mrt_dump_write::mrt_write_table_dump(
        out, subtype, view, sequence, prefix, bits, status, originated, peer, asn, attributes,
    )
}
