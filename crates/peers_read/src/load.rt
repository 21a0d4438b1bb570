// A body read into slots.
ghost use Rattle.std.specs.Prelude.{◌≡◌};
ghost use Rattle.peers_read.specs.Load.{load_peers, loading};

use answer::Refusal;
use peers_entry::Peer;
use peers_table::TableHead;

// The peers of a body in the first slots, or a refusal that leaves every slot as it was. A body that passed its check holds every peer
// that it declares, so each one is read.
pub fn load_peers(body: &[u8], slots: &mut [Peer]) -> Result<TableHead, Refusal>
    ensures answer { loading result slots.new ≡ load_peers body.now slots.old }
{
    let head = peers_table::check_peers(body)?;
    let count = head.count as usize;
    if slots.len() < count {
        return Err(Refusal::NoRoom);
    }
    let mut at = head.first;
    for slot in &mut slots[..count] {
        let got = peers_entry::read_peer(body, at).unwrap();
        *slot = got.peer;
        at = got.next;
    }
    Ok(head)
}
