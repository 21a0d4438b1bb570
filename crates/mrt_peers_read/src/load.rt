// A body read into slots.
ghost use Rattle.std.specs.Prelude.{◌≡◌};
ghost use Rattle.peers_read.specs.Load.{load_peers};
ghost use Rattle.mrt_peers_read.specs.Load.{load_out};

use peers_entry::Peer;

// The peers of a body in the first slots.
pub fn mrt_load_peers(body: &[u8], slots: &mut [Peer]) -> u32
    ensures answer { (slots.new, result) ≡ load_out (load_peers body.now slots.old) }
{
    match peers_read::load_peers(body, slots) {
        Ok(_) => 0,
        Err(r) => mrt_lent::refusal(r),
    }
}
