// For C and Rust: the function of `mrt_peers_write` that they call, under its own name. It promises the same.
#![tactic(auto)]

ghost use Rattle.std.specs.Prelude.{◌≡◌};
ghost use Rattle.mrt_lent.specs.Writer.{written_out};
ghost use Rattle.peers_write.specs.Write.{write_peers};

use mrt_lent::Wrote;
use peers_entry::Peer;

// A body at the front of the lent output, and how many octets it takes.
#[unsafe(no_mangle)]
pub extern "C" fn mrt_write_peers(
    out: &mut [u8],
    collector: u32,
    view: &[u8],
    slots: &[Peer],
    count: usize,
) -> Wrote
    ensures answer { (out.new, result)
        ≡ written_out (write_peers out.old collector view.now slots.now count) }
{
    mrt_peers_write::mrt_write_peers(out, collector, view, slots, count)
}
