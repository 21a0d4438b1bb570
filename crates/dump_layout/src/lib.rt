// The body of a TABLE_DUMP record (RFC 6396, 4.2): one route of one peer. Its subtype decides the size of its addresses.
#![tactic(auto)]

mod check;

pub use check::check_dump;

// A body without its attributes.
#[derive(Clone, Copy)]
pub struct Dump {
    pub view: u16,
    pub sequence: u16,
    // An address of four octets has the first four.
    pub prefix: [u8; 16],
    pub bits: u8,
    pub status: u8,
    pub originated: u32,
    pub peer: [u8; 16],
    // In a body the AS has two octets: one that is wider is refused, not cut.
    pub asn: u32,
}
