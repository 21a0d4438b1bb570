// Sequence numbers, which turn over at their width.
ghost use Rattle.std.specs.Prelude.{◌≡◌, ℕ, Bool, true, false, MatchOption};
ghost use Rattle.walk_missing.specs.Turned.{width, apart, shown};
ghost use Rattle.walk_missing.specs.Row.{told, seen, last as last_rule, kept, sequence};

use crate::{Counters, Missing};

// A sequence number: where a body has it, its counter, and how it turns over.
pub(crate) trait Number: Copy {
    ghost narrow: { Bool };

    ghost value: { Self → ℕ };

    // The number of a body.
    fn read(body: &[u8]) -> Self
        ensures { value result ≡ sequence narrow body.now };

    // The last one that was seen.
    fn last(c: Counters) -> Option<Self>
        ensures { MatchOption result (seen narrow c ≡ false)
            (λ e. (seen narrow c ≡ true) × (value e ≡ last_rule narrow c)) };

    // The counters after it.
    fn keep(self, c: Counters) -> Counters
        ensures { result ≡ kept narrow c (value self) };

    // Less an earlier one, turned over.
    fn less(self, earlier: Self) -> u32
        ensures { result ≡ apart (width narrow) (value earlier) (value self) };
}

// Of type 12: View Number 2, Sequence Number 2.
impl Number for u16 {
    ghost narrow = { true };

    ghost value = { λ n. n };

    fn read(body: &[u8]) -> u16 {
        octets::be16(body, 2)
    }

    fn last(c: Counters) -> Option<u16> {
        c.dumped.then_some(c.dump)
    }

    fn keep(self, c: Counters) -> Counters {
        Counters {
            dumped: true,
            dump: self,
            ..c
        }
    }

    fn less(self, earlier: u16) -> u32 {
        u32::from(self.wrapping_sub(earlier))
    }
}

// Of type 13.
impl Number for u32 {
    ghost narrow = { false };

    ghost value = { λ n. n };

    fn read(body: &[u8]) -> u32 {
        octets::be32(body, 0)
    }

    fn last(c: Counters) -> Option<u32> {
        c.tabled.then_some(c.table)
    }

    fn keep(self, c: Counters) -> Counters {
        Counters {
            tabled: true,
            table: self,
            ..c
        }
    }

    fn less(self, earlier: u32) -> u32 {
        self.wrapping_sub(earlier)
    }
}

// What is told of a difference.
#[tactic(auto, unfolding(crate::specs::Turned::shown))]
pub(crate) fn show(difference: u32) -> Missing
    ensures { told result ≡ shown difference }
{
    if difference == 0 {
        return Missing::Repeat;
    }
    Missing::Rows(difference - 1)
}
