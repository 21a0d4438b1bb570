// For C and Rust: the function of `mrt_dump` that they call, under its own name. It promises the same.
#![tactic(auto)]

ghost use Rattle.std.specs.Prelude.{◌≡◌};
ghost use Rattle.dump_read.specs.Read.{dump_of};
ghost use Rattle.mrt_dump.specs.Bodies.{dump_out};

// The fields of a TABLE_DUMP body; its prefix and its peer's address in 16 octets each.
#[unsafe(no_mangle)]
pub extern "C" fn mrt_read_table_dump(
    body: &[u8],
    subtype: u16,
    out: &mut [u64],
    prefix: &mut [u8],
    peer: &mut [u8],
) -> u32
    ensures answer { (out.new, (prefix.new, (peer.new, result)))
        ≡ dump_out out.old prefix.old peer.old (dump_of body.now subtype) }
{
    mrt_dump::mrt_read_table_dump(body, subtype, out, prefix, peer)
}
