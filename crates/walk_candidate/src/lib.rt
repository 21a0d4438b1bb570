// The test that a scan puts a record to.
#![tactic(auto)]

mod candidate;

pub use candidate::candidate_at;
use walk::Evidence;

// A record that a scan may take up: by what evidence, and where it ends.
#[derive(Clone, Copy)]
pub struct Standing {
    pub evidence: Evidence,
    pub end: usize,
}
