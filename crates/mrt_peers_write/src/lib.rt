// Peer tables written across the boundary, from lent slots.
#![tactic(auto)]

mod write;

pub use write::mrt_write_peers;
