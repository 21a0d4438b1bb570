// The slots written as a body.
ghost use Rattle.std.specs.Prelude.{◌≡◌, ◌+◌, ◌≤◌, length};
ghost use Rattle.answer.specs.Writing.{wrote};
ghost use Rattle.octets.specs.Octets.{patch};
ghost use Rattle.peers_write.specs.Write.{head_octets, write_peers};

use crate::measure::measure;
use answer::Refusal;
use peers_entry::Peer;

// The fields before the peers.
fn put_head(out: &mut [u8], collector: u32, view: &[u8], count: u16)
    requires { (length view.now ≤ 65535) × (8 + length view.now ≤ length out.old) }
    ensures { out.new ≡ patch out.old 0 (head_octets collector view.now count) }
{
    let name = view.len();
    octets::put_be32(out, 0, collector);
    octets::put_be16(out, 4, name as u16);
    octets_copies::put_octets(out, 6, view);
    octets::put_be16(out, 6 + name, count);
}

// The body at the front of the output, or a refusal that leaves the output as it was.
pub fn write_peers(
    out: &mut [u8],
    collector: u32,
    view: &[u8],
    slots: &[Peer],
    count: usize,
) -> Result<usize, Refusal>
    ensures answer { wrote result out.new
        ≡ write_peers out.old collector view.now slots.now count }
{
    let name = view.len();
    if peers_slots::wrong_count(slots.len(), count) {
        return Err(Refusal::Beyond);
    }
    if 65535 < name {
        return Err(Refusal::TooLarge);
    }
    let peers = &slots[..count];
    let octets = measure(peers)?;
    if out.len() < 8 + name + octets {
        return Err(Refusal::NoRoom);
    }
    put_head(out, collector, view, count as u16);
    let mut at = 8 + name;
    for p in peers {
        at = peers_entry::put_peer(out, at, *p);
    }
    Ok(at)
}
