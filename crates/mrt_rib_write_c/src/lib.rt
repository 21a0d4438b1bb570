// For C and Rust: the functions of `mrt_rib_write` that they call, under their own names. Each promises the same.
#![tactic(auto)]

ghost use Rattle.std.specs.Prelude.{◌≡◌};
ghost use Rattle.rib_add.specs.Add.{add_entry};
ghost use Rattle.mrt_lent.specs.Writer.{written_out};
ghost use Rattle.mrt_rib_write.specs.Begin.{begin_from};

use mrt_lent::Wrote;

// A body with no entry at the front of the lent output.
#[unsafe(no_mangle)]
pub extern "C" fn mrt_begin_rib(
    out: &mut [u8],
    subtype: u16,
    sequence: u32,
    bits: u8,
    prefix: &[u8],
) -> Wrote
    ensures answer { (out.new, result) ≡ written_out (begin_from out.old subtype sequence bits prefix.now) }
{
    mrt_rib_write::mrt_begin_rib(out, subtype, sequence, bits, prefix)
}

// One more entry in a body that fills the first len octets of the lent output.
#[unsafe(no_mangle)]
pub extern "C" fn mrt_add_entry(
    out: &mut [u8],
    len: usize,
    subtype: u16,
    peer: u16,
    originated: u32,
    path: u32,
    attributes: &[u8],
) -> Wrote
    ensures answer { (out.new, result) ≡ written_out (add_entry out.old len subtype
        (record { peer = peer; originated = originated; path = path }) attributes.now) }
{
    mrt_rib_write::mrt_add_entry(out, len, subtype, peer, originated, path, attributes)
}
