// A peer added.
ghost use Rattle.std.specs.Prelude.{◌≡◌, [], Ok};
ghost use Rattle.peers_add.specs.Add.{adding};
ghost use Rattle.mrt_peers.specs.Add.{add_out};

use crate::Found;
use crate::find::found_of;
use crate::given::fresh_of;
use peers_add::PeerId;
use peers_entry::Peer;

// The id of a peer, whether it was known or added.
fn id_of(id: PeerId) -> u16
    ensures { result ≡ (adding (Ok id) []).id }
{
    match id {
        PeerId::Known(id) | PeerId::Added(id) => id,
    }
}

// The id of a peer, which is stored after the last one in use where its address is not known.
pub fn mrt_add_peer(
    slots: &mut [Peer],
    count: usize,
    kind: u8,
    id: u32,
    addr: &[u8],
    asn: u32,
) -> Found
    ensures answer { (slots.new, result) ≡ add_out slots.old count kind id addr.now asn }
{
    let fresh = fresh_of(count, kind, id, addr, asn);
    found_of(peers_add::add_peer(slots, fresh.count, fresh.peer).map(id_of))
}
