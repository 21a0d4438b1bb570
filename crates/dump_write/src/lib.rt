// Bodies of TABLE_DUMP records, written into lent output (RFC 6396, 4.2).
#![tactic(auto)]

mod write;

pub use write::write_dump;
