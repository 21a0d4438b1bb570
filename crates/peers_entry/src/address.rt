// Addresses, looked up by and compared: sixteen octets, of which an address of four octets has the first four.
ghost use Rattle.std.specs.Prelude.{◌≡◌, ◌≤◌, ◌+◌, length, eqb};
ghost use Rattle.octets.specs.Octets.{be_at};
ghost use Rattle.peers_entry.specs.Peer.{address_size, key_of, low_first, same_address, same_octets, stored};

use crate::Peer;
use crate::kind::{address_size, long};

// A peer that has an address and nothing else, to look others up by.
#[tactic(auto, unfolding(crate::specs::Peer::key_of))]
pub fn address_key(v6: bool, addr: [u8; 16]) -> Peer
    ensures answer { result ≡ key_of v6 addr }
{
    Peer {
        kind: u8::from(v6),
        id: 0,
        addr,
        asn: 0,
    }
}

// The peer as it is stored: zeros after an address of four octets.
pub fn stored_peer(p: Peer) -> Peer
    ensures answer { result ≡ stored p }
{
    let given = p.addr;
    let addr = octets_address::read_address(&given, 0, long(p.kind));
    Peer { addr, ..p }
}

// Four octets as one number, the first octet lowest: so they are one load, and nothing is turned.
fn low_first(s: &[u8], at: usize) -> u32
    requires { at + 4 ≤ length s.now }
    ensures { result ≡ low_first s.now at }
{
    u32::from_le_bytes([s[at], s[at + 1], s[at + 2], s[at + 3]])
}

// Whether four octets at an offset are the same.
fn same_four(a: &[u8], b: &[u8], at: usize) -> bool
    requires { (at + 4 ≤ length a.now) × (at + 4 ≤ length b.now) }
    ensures { result ≡ eqb (be_at a.now at 4) (be_at b.now at 4) }
{
    low_first(a, at) == low_first(b, at)
}

// Whether two addresses of a type's size are the same. Past the first four octets the last ones differ most; the eight between them
// come after, lowest first, so that no two tests in a row become one of vectors, for which every near miss would wait.
fn same_octets(a: &[u8], b: &[u8], kind: u8) -> bool
    requires { (16 ≤ length a.now) × (16 ≤ length b.now) }
    ensures { result ≡ same_octets (address_size kind) a.now b.now }
{
    same_four(a, b, 0)
        && (address_size(kind) == 4
            || same_four(a, b, 12) && same_four(a, b, 4) && same_four(a, b, 8))
}

// Whether a peer has the key's address: the octets that its family has, and the family. The octets are looked at first: they nearly
// always differ, and the processor foresees that.
pub fn same_address(p: Peer, key: Peer) -> bool
    ensures answer { result ≡ same_address p key }
{
    let a = p.addr;
    let b = key.addr;
    same_octets(&a, &b, key.kind) && p.kind % 2 == key.kind % 2
}
