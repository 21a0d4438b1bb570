// For C and Rust: the functions of `mrt_rib` that they call, under their own names. Each promises the same.
#![tactic(auto)]

ghost use Rattle.std.specs.Prelude.{◌≡◌};
ghost use Rattle.rib_head.specs.Age.{age_of};
ghost use Rattle.rib_read.specs.Rib.{rib_of};
ghost use Rattle.mrt_rib.specs.Bodies.{rib_out};

// The head of a RIB body, and its prefix in 16 octets.
#[unsafe(no_mangle)]
pub extern "C" fn mrt_read_rib(body: &[u8], subtype: u16, out: &mut [u64], prefix: &mut [u8]) -> u32
    ensures answer { (out.new, (prefix.new, result))
        ≡ rib_out out.old prefix.old (rib_of body.now subtype) }
{
    mrt_rib::mrt_read_rib(body, subtype, out, prefix)
}

// How old a route was when its record was written, in seconds.
#[unsafe(no_mangle)]
pub extern "C" fn mrt_age(timestamp: u32, originated: u32) -> i64
    ensures answer { result ≡ age_of timestamp originated }
{
    mrt_rib::mrt_age(timestamp, originated)
}
