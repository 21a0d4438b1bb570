// A lookup by address.
ghost use Rattle.std.specs.Prelude.{◌≡◌};
ghost use Rattle.peers_find.specs.Find.{finding};
ghost use Rattle.mrt_peers.specs.Find.{find_out, found_of};

use crate::Found;
use crate::given::key_for;
use answer::Refusal;
use peers_entry::Peer;

// What a lookup and an addition answer, in numbers.
pub(crate) fn found_of(a: Result<u16, Refusal>) -> Found
    ensures { result ≡ found_of (finding a) }
{
    match a {
        Ok(id) => Found {
            refusal: 0,
            id: id as u32,
        },
        Err(r) => Found {
            refusal: mrt_lent::refusal(r),
            id: 0,
        },
    }
}

// The highest id that holds an address.
pub fn mrt_find_peer(slots: &[Peer], count: usize, kind: u8, addr: &[u8]) -> Found
    ensures answer { result ≡ find_out slots.now count kind addr.now }
{
    let key = key_for(count, kind, addr);
    found_of(peers_find::find_peer(slots, key.count, key.v6, key.addr))
}
