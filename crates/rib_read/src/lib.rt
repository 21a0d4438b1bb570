// RIB records of TABLE_DUMP_V2, read (RFC 6396, 4.3.2; RFC 8050, 4). Attributes stay octets of the body.
#![tactic(auto)]

mod body;

pub use body::read_rib;

#[derive(Clone, Copy)]
pub struct Rib {
    pub sequence: u32,
    pub bits: u8,
    pub prefix: [u8; 16],
    // How many entries the body says that it has, and how many it has.
    pub declared: u16,
    pub count: u16,
    // Where the first entry starts, in the body.
    pub entries: usize,
}
