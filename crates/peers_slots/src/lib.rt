// A lent list of peer records, of which the first are in use: what its readers and writers share.
#![tactic(auto)]

mod used;

pub use used::{in_use, wrong_count};
