// A lookup by address.
ghost use Rattle.std.specs.Prelude.{◌≡◌};
ghost use Rattle.peers_find.specs.Find.{find_peer, finding, look_up};

use answer::Refusal;
use peers_entry::Peer;

// The highest id that holds the key's address. The count stands beside the slots, here and in the calls above: a wrong one is refused.
pub fn look_up(slots: &[Peer], count: usize, key: Peer) -> Result<u16, Refusal>
    ensures answer { finding result ≡ look_up slots.now count key }
{
    let used = peers_slots::in_use(slots.len(), count);
    match slots[..used]
        .iter()
        .rposition(|s| peers_entry::same_address(*s, key))
    {
        Some(id) => Ok(id as u16),
        None => Err(Refusal::Beyond),
    }
}

// The highest id that holds an address, given by its family and its octets.
pub fn find_peer(slots: &[Peer], count: usize, v6: bool, addr: [u8; 16]) -> Result<u16, Refusal>
    ensures answer { finding result ≡ find_peer slots.now count v6 addr }
{
    look_up(slots, count, peers_entry::address_key(v6, addr))
}
