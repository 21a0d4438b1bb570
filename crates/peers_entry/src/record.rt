// One peer, read and written.
ghost use Rattle.std.specs.Prelude.{◌≡◌, ◌≤◌, ◌+◌, length};
ghost use Rattle.octets.specs.Octets.{be_at, bytes_of, patch};
ghost use Rattle.peers_entry.specs.Peer.{as_size, put_peer, read_peer, reading};

use crate::kind::{address_size, as_size, long, peer_size};
use crate::{Peer, PeerRead};
use answer::Refusal;

// The AS that stands in the octets that the type gives it. Its first two octets and its last two are read of either type, so that
// there is no branch to foresee.
fn read_as(s: &[u8], at: usize, kind: u8) -> u32
    requires { at + as_size kind ≤ length s.now }
    ensures { result ≡ be_at s.now at (as_size kind) }
{
    let size = as_size(kind);
    let first = at + 2;
    let end = at + size;
    let last = end - 2;
    let high = octets::be16(&s[at..first], 0) as u32;
    let low = octets::be16(&s[last..end], 0) as u32;
    if size == 4 {
        return high * 65536 + low;
    }
    high
}

// The peer at an offset of a body.
pub fn read_peer(body: &[u8], at: usize) -> Result<PeerRead, Refusal>
    ensures answer { reading result ≡ read_peer body.now at }
{
    let n = body.len();
    if n < at {
        return Err(Refusal::Beyond);
    }
    let kind = octets::octet(body, at);
    let size = peer_size(kind);
    if n - at < size {
        return Err(Refusal::BodyNotMet);
    }
    let start = at + 1;
    let front = at + 5;
    let addr = octets_address::read_address(body, front, long(kind));
    let peer = Peer {
        kind,
        id: octets::be32(&body[start..front], 0),
        addr,
        asn: read_as(body, front + address_size(kind), kind),
    };
    let next = at + size;
    Ok(PeerRead { peer, next })
}

// The AS in the octets that the type gives it: the high half, and the low half in the last two octets, which are the same two
// where there are only two.
fn put_as(out: &mut [u8], at: usize, kind: u8, asn: u32)
    requires { at + as_size kind ≤ length out.old }
    ensures { out.new ≡ patch out.old at (bytes_of (as_size kind) asn) }
{
    let end = at + as_size(kind);
    octets_copies::store16(out, at, (asn / 65536) as u16);
    octets_copies::store16(out, end - 2, (asn % 65536) as u16);
}

// A peer's octets at an offset of the output, and where the next peer goes.
pub fn put_peer(out: &mut [u8], at: usize, p: Peer) -> usize
    ensures answer { (out.new, result) ≡ put_peer out.old at p }
{
    let n = out.len();
    let kind = p.kind;
    let size = peer_size(kind);
    if n < size || n - size < at {
        return at;
    }
    let length = address_size(kind);
    octets::put_octet(out, at, kind);
    octets_copies::store32(out, at + 1, p.id);
    let front = at + 5;
    let addr = p.addr;
    octets_address::put_address(out, front, addr, long(kind));
    put_as(out, front + length, kind, p.asn);
    at + size
}
