// Where a walk can hand out no record.
ghost use Rattle.std.specs.Prelude.{◌≡◌, ◌<◌, length};
ghost use Rattle.answer.specs.Refusal.{number_of};
ghost use Rattle.rules.specs.Ask.{over};
ghost use Rattle.walk.specs.Step.{unfound, scanned, own_end};
ghost use Rattle.walk_judge.specs.Record.{judge_at};
ghost use Rattle.walk_candidate.specs.Candidate.{candidate_at};
ghost use Rattle.walk_step.specs.Answers.{stepped};

use crate::aligned::try_own_end;
use crate::call::{go_on, stop};
use crate::{Stepped, WalkAnswer};
use answer::Refusal;
use walk::Evidence;

// Octets from `start` on that no record is taken from, the window of a scan after it, and how many records must confirm its end.
#[derive(Clone, Copy)]
pub(crate) struct Lost<'a> {
    pub s: &'a [u8],
    pub start: usize,
    pub window: usize,
    pub asked: u8,
    ghost inside: { start < length s.now },
}

impl Lost<'_> {
    // A record that is framed and refused: its own end is tried, and then the scan.
    #[tactic(auto, using(crate::proofs::Reading::gaps))]
    pub(crate) fn resume(self, refusal: Refusal, end: usize) -> Stepped
        ensures { stepped result ≡ over self.entry.s.now
            (own_end judge_at candidate_at self.entry.start self.entry.window self.entry.asked (number_of refusal) end) }
    {
        match try_own_end(self.s, end, self.asked.max(1)) {
            None => self.search(refusal),
            Some(confirmed) => go_on(
                end,
                WalkAnswer::Gap {
                    start: self.start,
                    end,
                    refusal,
                    evidence: Evidence::OwnEnd,
                    confirmed,
                },
            ),
        }
    }

    // The scan.
    #[tactic(auto, using(crate::proofs::Reading::gaps))]
    pub(crate) fn search(self, refusal: Refusal) -> Stepped
        ensures { stepped result ≡ over self.entry.s.now
            (scanned judge_at candidate_at self.entry.start self.entry.window self.entry.asked (number_of refusal)) }
    {
        let confirmed = self.asked.max(1);
        match walk_scan::scan(self.s, self.start, self.window, confirmed - 1) {
            None => self.unfound(refusal),
            Some(found) => go_on(
                found.offset,
                WalkAnswer::Gap {
                    start: self.start,
                    end: found.offset,
                    refusal,
                    evidence: found.evidence,
                    confirmed,
                },
            ),
        }
    }

    // No offset in the window: the gap to the end where less than window + 6 octets are left, or else the refusal.
    #[tactic(auto, using(crate::proofs::Reading::gaps))]
    fn unfound(self, refusal: Refusal) -> Stepped
        ensures { stepped result ≡ over self.entry.s.now (unfound self.entry.start self.entry.window (number_of refusal)) }
    {
        let n = self.s.len();
        let start = self.start;
        let window = self.window;
        if (n - start).saturating_sub(6) < window {
            let to_end = WalkAnswer::Gap {
                start,
                end: n,
                refusal,
                evidence: Evidence::End,
                confirmed: 0,
            };
            return go_on(n, to_end);
        }
        let exhausted = WalkAnswer::Window {
            start,
            window,
            refusal,
        };
        stop(start, exhausted)
    }
}
