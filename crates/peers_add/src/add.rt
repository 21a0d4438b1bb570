// A peer added.
ghost use Rattle.std.specs.Prelude.{◌≡◌};
ghost use Rattle.peers_add.specs.Add.{add_peer, adding};

use crate::PeerId;
use answer::Refusal;
use peers_entry::Peer;

// The id of a peer, which is stored after the last one in use where its address is not known.
pub fn add_peer(slots: &mut [Peer], count: usize, p: Peer) -> Result<PeerId, Refusal>
    ensures answer { adding result slots.new ≡ add_peer slots.old count p }
{
    if let Ok(id) = peers_find::look_up(slots, count, p) {
        return Ok(PeerId::Known(id));
    }
    let n = slots.len();
    if peers_slots::wrong_count(n, count) {
        return Err(Refusal::Beyond);
    }
    if count == 65535 {
        return Err(Refusal::TooLarge);
    }
    if n == count {
        return Err(Refusal::NoRoom);
    }
    let id = count;
    slots[id] = peers_entry::stored_peer(p);
    Ok(PeerId::Added(id as u16))
}
