// The check of a PEER_INDEX_TABLE's body (RFC 6396, 4.3.1).
#![tactic(auto)]

mod table;

pub use table::check_peers;

// The head of a body that holds every declared peer.
#[derive(Clone, Copy)]
pub struct TableHead {
    pub collector: u32,
    // Where the view name starts in the body, and how many octets it has.
    pub name: usize,
    pub length: usize,
    pub count: u16,
    // Where the first peer starts and where the last one ends.
    pub first: usize,
    pub end: usize,
}
