// A peer added to a PEER_INDEX_TABLE (RFC 6396, 4.3.1) in a lent list of peer records.
#![tactic(auto)]

mod add;

pub use add::add_peer;

// The id of a peer, whose address was known or which was added.
#[derive(Clone, Copy)]
pub enum PeerId {
    Known(u16),
    Added(u16),
}
