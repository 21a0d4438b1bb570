// The judgement of one record.
#![tactic(auto)]

mod body;
mod record;

use answer::Refusal;
pub use body::check_body;
use header::Framed;
pub use record::{judge_at, judge_record};

// What a walk asks of an offset.
#[derive(Clone, Copy)]
pub enum Verdict {
    // A record that passes all checks.
    Fit(Framed),
    // A record that is framed and refused, and where it ends.
    Off { refusal: Refusal, end: usize },
    // No record is framed.
    Cut(Refusal),
}
