// The body of the table.
ghost use Rattle.std.specs.Prelude.{◌≡◌};
ghost use Rattle.peers_table.specs.Table.{check_peers, heading};

use crate::TableHead;
use answer::Refusal;

// The body's head, where the body holds every declared peer.
pub fn check_peers(body: &[u8]) -> Result<TableHead, Refusal>
    ensures answer { heading result ≡ check_peers body.now }
{
    let n = body.len();
    if n < 8 {
        return Err(Refusal::BodyNotMet);
    }
    let length = octets::be16(body, 4) as usize;
    if n - 8 < length {
        return Err(Refusal::BodyNotMet);
    }
    let count = octets::be16(body, 6 + length);
    let first = 8 + length;
    let mut at = first;
    for _ in 0..count {
        let size = peers_entry::peer_size(octets::octet(body, at));
        if n - at < size {
            return Err(Refusal::BodyNotMet);
        }
        at += size;
    }
    Ok(TableHead {
        collector: octets::be32(body, 0),
        name: 6,
        length,
        count,
        first,
        end: at,
    })
}
