// The recovering walk: records handed out one by one, and gaps where none can be taken.
#![tactic(auto)]

mod aligned;
mod call;
mod lost;

use answer::Refusal;
pub use call::{next, step};
use header::Located;
use walk::{Evidence, Walk};

#[derive(Clone, Copy)]
pub enum WalkAnswer {
    // A record that passes all checks.
    Record(Located),
    // Octets that no record is taken from: why, by what evidence the walk goes on at the end, and how many records confirm it.
    Gap {
        start: usize,
        end: usize,
        refusal: Refusal,
        evidence: Evidence,
        confirmed: u8,
    },
    // The end, with the walk's position.
    End(usize),
    // The scan's window is exhausted: where it started, and why.
    Window {
        start: usize,
        window: usize,
        refusal: Refusal,
    },
    Refused(Refusal),
}

// The walk after a call, and the call's answer.
#[derive(Clone, Copy)]
pub struct Stepped {
    pub walk: Walk,
    pub answer: WalkAnswer,
}
