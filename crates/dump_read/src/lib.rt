// Bodies of TABLE_DUMP records, read (RFC 6396, 4.2). Attributes stay octets of the body.
#![tactic(auto)]

mod body;

pub use body::read_dump;
use dump_layout::Dump;

// The fields of a body, and its attributes.
#[derive(Clone, Copy)]
pub struct DumpRead {
    pub dump: Dump,
    // Where the attributes start and where they end, in the body.
    pub start: usize,
    pub end: usize,
}
