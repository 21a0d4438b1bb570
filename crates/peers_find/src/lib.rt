// The PEER_INDEX_TABLE (RFC 6396, 4.3.1) in a lent list of peer records: a lookup by address.
#![tactic(auto)]

mod find;

pub use find::{find_peer, look_up};
