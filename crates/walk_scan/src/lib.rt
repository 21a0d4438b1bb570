// The scan for a place where a walk takes up again.
#![tactic(auto)]

mod ahead;
mod sight;

pub use sight::scan;
use walk::Evidence;

// The offset where the asked run stands, with the first one's evidence.
#[derive(Clone, Copy)]
pub struct Found {
    pub offset: usize,
    pub evidence: Evidence,
}
