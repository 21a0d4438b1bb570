// Rows that are missing between two RIB records, told by their sequence numbers: a step beside the walk.
#![tactic(auto)]

mod row;
mod turned;

pub use row::{count, fresh, untold};

// The last sequence number of type 13 and that of type 12, where a record of it was counted after the last peer table. Marks beside the
// numbers, and no Options: a lent number keeps its value beside a mark of 0.
#[derive(Clone, Copy)]
pub struct Counters {
    pub tabled: bool,
    pub table: u32,
    pub dumped: bool,
    pub dump: u16,
}

// What is told of a record: nothing, that it has the number of the one before, or how many rows are missing between the two.
#[derive(Clone, Copy)]
pub enum Missing {
    Nothing,
    Repeat,
    Rows(u32),
}

#[derive(Clone, Copy)]
pub struct Counted {
    pub counters: Counters,
    pub missing: Missing,
}
