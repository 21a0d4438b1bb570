// The PEER_INDEX_TABLE (RFC 6396, 4.3.1) written from a lent list of peer records.
#![tactic(auto)]

mod measure;
mod write;

pub use write::write_peers;
