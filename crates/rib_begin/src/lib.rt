// A RIB body begun in lent output, with no entry (RFC 6396, 4.3.2).
#![tactic(auto)]

mod begin;

pub use begin::begin_rib;
