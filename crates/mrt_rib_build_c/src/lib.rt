// For C and Rust: the functions of `mrt_rib_build` that they call, under their own names. Each promises the same.
#![tactic(auto)]

ghost use Rattle.std.specs.Prelude.{◌≡◌};
ghost use Rattle.rib_add.specs.Add.{open_of};
ghost use Rattle.mrt_rib_build.specs.Build.{opened_out, push_out};

// A builder at the end of a whole body.
#[unsafe(no_mangle)]
pub extern "C" fn mrt_open_rib(body: &[u8], subtype: u16, out: &mut [u64]) -> u32
    ensures answer { (out.new, result) ≡ opened_out out.old (open_of body.now subtype) }
{
    mrt_rib_build::mrt_open_rib(body, subtype, out)
}

// One more entry where a builder stands, which is lent as its three values and moved.
#[unsafe(no_mangle)]
pub extern "C" fn mrt_push_entry(
    out: &mut [u8],
    subtype: u16,
    builder: &mut [u64],
    peer: u16,
    originated: u32,
    path: u32,
    attributes: &[u8],
) -> u32
    ensures answer { (out.new, (builder.new, result))
        ≡ push_out out.old subtype builder.old
        (record { peer = peer; originated = originated; path = path }) attributes.now }
{
    mrt_rib_build::mrt_push_entry(out, subtype, builder, peer, originated, path, attributes)
}
