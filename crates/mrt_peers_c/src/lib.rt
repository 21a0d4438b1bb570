// For C and Rust: the functions of `mrt_peers` that they call, under their own names. Each promises the same.
#![tactic(auto)]

ghost use Rattle.std.specs.Prelude.{◌≡◌};
ghost use Rattle.mrt_peers.specs.Add.{add_out};
ghost use Rattle.mrt_peers.specs.Find.{find_out};

use mrt_peers::Found;
use peers_entry::Peer;

// The highest id that holds an address.
#[unsafe(no_mangle)]
pub extern "C" fn mrt_find_peer(slots: &[Peer], count: usize, kind: u8, addr: &[u8]) -> Found
    ensures answer { result ≡ find_out slots.now count kind addr.now }
{
    mrt_peers::mrt_find_peer(slots, count, kind, addr)
}

// The id of a peer, which is stored after the last one in use where its address is not known.
#[unsafe(no_mangle)]
pub extern "C" fn mrt_add_peer(
    slots: &mut [Peer],
    count: usize,
    kind: u8,
    id: u32,
    addr: &[u8],
    asn: u32,
) -> Found
    ensures answer { (slots.new, result) ≡ add_out slots.old count kind id addr.now asn }
{
    mrt_peers::mrt_add_peer(slots, count, kind, id, addr, asn)
}
