// The slots written as a body.
ghost use Rattle.std.specs.Prelude.{◌≡◌};
ghost use Rattle.mrt_lent.specs.Writer.{written_out};
ghost use Rattle.peers_write.specs.Write.{write_peers};

use mrt_lent::Wrote;
use peers_entry::Peer;

// A body at the front of the lent output, and how many octets it takes.
pub fn mrt_write_peers(
    out: &mut [u8],
    collector: u32,
    view: &[u8],
    slots: &[Peer],
    count: usize,
) -> Wrote
    ensures answer { (out.new, result)
        ≡ written_out (write_peers out.old collector view.now slots.now count) }
{
    mrt_lent::wrote_of(peers_write::write_peers(out, collector, view, slots, count))
}
