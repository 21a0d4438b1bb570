// What a caller gives, as the calls over slots are asked it.
ghost use Rattle.std.specs.Prelude.{◌≡◌};
ghost use Rattle.mrt_peers.specs.Given.{count_for, fresh_of, key_for};

use crate::{Fresh, Key};
use peers_entry::Peer;

// The count, or one that no table has where the address has fewer than sixteen octets: the call then refuses 8.
#[tactic(auto, unfolding(crate::specs::Given::count_for))]
fn count_for(count: usize, n: usize) -> usize
    ensures { result ≡ count_for count n }
{
    if n < 16 { 65536 } else { count }
}

// What a lookup is asked.
pub(crate) fn key_for(count: usize, kind: u8, addr: &[u8]) -> Key
    ensures { result ≡ key_for count kind addr.now }
{
    let octets = mrt_lent::sixteen(addr);
    Key {
        count: count_for(count, addr.len()),
        v6: kind % 2 == 1,
        addr: octets,
    }
}

// What is to be added.
pub(crate) fn fresh_of(count: usize, kind: u8, id: u32, addr: &[u8], asn: u32) -> Fresh
    ensures { result ≡ fresh_of count kind id addr.now asn }
{
    let octets = mrt_lent::sixteen(addr);
    let peer = Peer {
        kind,
        id,
        addr: octets,
        asn,
    };
    Fresh {
        count: count_for(count, addr.len()),
        peer,
    }
}
