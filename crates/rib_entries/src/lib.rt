// The entries of a RIB body (RFC 6396, 4.3.4; RFC 8050, 4), by number and by a cursor. Attributes stay octets of the body.
#![tactic(auto)]

mod entries;

pub use entries::{after_entries, entry_at, first_entry, next_entry, pass_entries};

#[derive(Clone, Copy)]
pub struct Entry {
    pub peer: u16,
    pub originated: u32,
    // 0 where the subtype has none.
    pub path: u32,
    // Where the attributes start and where they end, in the body.
    pub start: usize,
    pub end: usize,
}

// Where the next entry starts, and how many entries are left from there on.
#[derive(Clone, Copy)]
pub struct Cursor {
    pub at: usize,
    pub left: u16,
}

// An entry, and the cursor after it.
#[derive(Clone, Copy)]
pub struct Next {
    pub entry: Entry,
    pub cursor: Cursor,
}
