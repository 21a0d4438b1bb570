// Lookups and additions in lent slots, across the boundary. The calls pass the slots on; what they decide, they ask of functions
// by value.
#![tactic(auto)]

mod add;
mod find;
mod given;

pub use add::mrt_add_peer;
pub use find::mrt_find_peer;
use peers_entry::Peer;

// What a lookup and an addition return: no id where they have refused.
#[repr(C)]
#[derive(Clone, Copy)]
pub struct Found {
    pub refusal: u32,
    pub id: u32,
}

// What a lookup is asked: how many slots are in use, and the family, as `find_peer` takes it, and the octets of an address.
#[derive(Clone, Copy)]
pub(crate) struct Key {
    count: usize,
    v6: bool,
    addr: [u8; 16],
}

// What an addition is asked: how many slots are in use, and the peer.
#[derive(Clone, Copy)]
pub(crate) struct Fresh {
    count: usize,
    peer: Peer,
}
