// RIB bodies in lent output, given entries where a builder stands, one or many by a call (RFC 6396, 4.3.4; RFC 8050, 4).
#![tactic(auto)]

mod push;
mod rows;

pub use push::push_entry;
pub use rows::push_entries;

#[derive(Clone, Copy)]
pub struct NewEntry {
    pub peer: u16,
    pub originated: u32,
    // 0 where the subtype has none.
    pub path: u32,
}

// A body that can be given entries: where it ends, where its entry count stands, and that count.
#[derive(Clone, Copy)]
pub struct Builder {
    pub len: usize,
    pub at: usize,
    pub count: u16,
}

// How many rows went in, and the builder after them.
#[derive(Clone, Copy)]
pub struct Pushed {
    pub builder: Builder,
    pub rows: u16,
}
