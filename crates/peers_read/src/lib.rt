// The PEER_INDEX_TABLE (RFC 6396, 4.3.1) read into a lent list of peer records.
#![tactic(auto)]

mod load;

pub use load::load_peers;
