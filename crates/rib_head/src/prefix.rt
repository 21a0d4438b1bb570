// The bits after a prefix, which are cleared.
ghost use Rattle.std.specs.Prelude.{◌≡◌, ◌<◌};
ghost use Rattle.rib_head.specs.Prefix.{masked, cleared};

// The prefix with every bit after the first so many cleared.
pub fn clear_after(bits: u8, mut prefix: [u8; 16]) -> [u8; 16]
    ensures answer { result ≡ cleared bits prefix 16 }
{
    for (i, v) in prefix.iter_mut().enumerate() {
        *v = mask(bits, i, *v);
    }
    prefix
}

// The octet i of a prefix, with the bits after the prefix cleared.
#[tactic(auto, unfolding(crate::specs::Prefix::masked))]
fn mask(bits: u8, i: usize, v: u8) -> u8
    requires { i < 16 }
    ensures { result ≡ masked bits i v }
{
    let n = usize::from(bits).saturating_sub(8 * i);
    if n == 0 {
        return 0;
    }
    if 8 <= n {
        return v;
    }
    let k = 8 - n;
    (v >> k) << k
}
