// One peer of a PEER_INDEX_TABLE (RFC 6396, 4.3.1).
#![tactic(auto)]

mod address;
mod kind;
mod record;

pub use address::{address_key, same_address, stored_peer};
pub use kind::{peer_size, unfit_as};
pub use record::{put_peer, read_peer};

// A peer, as the slots hold it.
#[repr(C)]
#[derive(Clone, Copy)]
pub struct Peer {
    // The type octet: value 1 means an IPv6 address, value 2 an AS of four octets.
    pub kind: u8,
    pub id: u32,
    // An address of four octets has the first four.
    pub addr: [u8; 16],
    pub asn: u32,
}

// A peer that was read.
#[derive(Clone, Copy)]
pub struct PeerRead {
    pub peer: Peer,
    // Where the next peer starts.
    pub next: usize,
}
