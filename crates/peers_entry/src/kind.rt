// What the type octet decides.
ghost use Rattle.std.specs.Prelude.{◌≡◌, ◌%◌, eqb};
ghost use Rattle.peers_entry.specs.Peer.{address_size, as_size, peer_size, unfit, wide};

use crate::Peer;

// Whether the address has sixteen octets.
pub(crate) fn long(kind: u8) -> bool
    ensures { result ≡ eqb (kind % 2) 1 }
{
    kind % 2 == 1
}

// Whether the AS has four octets.
#[tactic(auto, unfolding(crate::specs::Peer::wide))]
fn wide(kind: u8) -> bool
    ensures { result ≡ wide kind }
{
    kind / 2 % 2 == 1
}

// How many octets the address takes.
#[tactic(auto, unfolding(crate::specs::Peer::address_size))]
pub(crate) fn address_size(kind: u8) -> usize
    ensures { result ≡ address_size kind }
{
    octets_address::size_of(long(kind))
}

// How many octets the AS takes.
#[tactic(auto, unfolding(crate::specs::Peer::as_size))]
pub(crate) fn as_size(kind: u8) -> usize
    ensures { result ≡ as_size kind }
{
    if wide(kind) { 4 } else { 2 }
}

// How many octets a peer of this type takes.
pub fn peer_size(kind: u8) -> usize
    ensures answer { result ≡ peer_size kind }
{
    5 + address_size(kind) + as_size(kind)
}

// Whether the AS is too large for its field.
#[tactic(auto, unfolding(crate::specs::Peer::unfit))]
pub fn unfit_as(p: Peer) -> bool
    ensures answer { result ≡ unfit p }
{
    !wide(p.kind) && 65535 < p.asn
}
