// The listing of a whole stream.
ghost use Rattle.std.specs.Prelude.{◌≡◌, ◌+◌, ◌^◌, ◌<◌, length};
ghost use Rattle.walk_missing.specs.Row.{told, counted};
ghost use Rattle.walk_step.specs.Answers.{said};
ghost use Rattle.listing_lines.specs.Listing.{wrote, missing_line, lines, Within, counting, is_last, listing, listed, room};

use crate::digits::Text;
use header::Located;
use walk_missing::{Counted, Counters, Missing};
use walk_step::WalkAnswer;

// The listing of a stream: what of it has no room is dropped, and the answer is its whole length.
pub fn list(s: &[u8], out: &mut [u8]) -> usize
    ensures answer { (out.new, result) ≡ listed s.now out.old }
{
    let mut text = Text { out, at: 0 };
    text.put_listing(s);
    text.at
}

impl Text<'_> {
    // The listing of a stream.
    fn put_listing(&mut self, s: &[u8])
        requires { self.old.at + room < 2 ^ 64 }
        ensures same { self.new.out.ghost_name ≡ self.old.out.ghost_name }
        ensures text { (self.new.out.now, self.new.at) ≡ wrote self.old.out.now self.old.at (listing s.now) }
    {
        let n = s.len();
        if 65536 < n {
            self.put_line(b'L', &[65536]);
            return;
        }
        self.put_line(b'H', &[n, 1048576, 3]);
        let mut w = walk::fresh();
        let mut counters = walk_missing::fresh();
        for _ in 0..2 * (n / 12) + 2 {
            let turn = walk_step::step(s, w, 1048576, 3);
            let row = count_answer(s, counters, turn.answer);
            self.put_answer(turn.answer, row.missing);
            if is_last(turn.answer) {
                return;
            }
            w = turn.walk;
            counters = row.counters;
        }
    }

    // The lines of one answer, with what is told of a record.
    fn put_answer(&mut self, answer: WalkAnswer, missing: Missing)
        requires { self.old.at + 151 < 2 ^ 64 }
        ensures same { self.new.out.ghost_name ≡ self.old.out.ghost_name }
        ensures text { (self.new.out.now, self.new.at)
            ≡ wrote self.old.out.now self.old.at (lines (said answer) (told missing)) }
    {
        match answer {
            WalkAnswer::Record(Located { start, frame }) => {
                let end = frame.end;
                let header = frame.head.header;
                let values = [start, end, header.kind as usize, header.subtype as usize];
                self.put_line(b'R', &values);
                self.put_missing(start, missing);
            }
            WalkAnswer::Gap {
                start,
                end,
                refusal,
                evidence,
                confirmed,
            } => {
                let values = [
                    start,
                    end,
                    u8::from(refusal) as usize,
                    u8::from(evidence) as usize,
                    confirmed as usize,
                ];
                self.put_line(b'G', &values);
            }
            WalkAnswer::End(position) => self.put_line(b'E', &[position]),
            WalkAnswer::Window { .. } | WalkAnswer::Refused(_) => {}
        }
    }

    // The line of the rows missing before a record, where anything is told of them.
    fn put_missing(&mut self, start: usize, missing: Missing)
        requires { self.old.at + 65 < 2 ^ 64 }
        ensures same { self.new.out.ghost_name ≡ self.old.out.ghost_name }
        ensures text { (self.new.out.now, self.new.at)
            ≡ wrote self.old.out.now self.old.at (missing_line start (told missing)) }
    {
        match missing {
            Missing::Nothing => {}
            Missing::Repeat => self.put_line(b'S', &[start, 0, 1]),
            Missing::Rows(rows) => self.put_line(b'S', &[start, rows as usize, 0]),
        }
    }
}

// A record is counted by its body. Nothing else moves the counters, a gap neither.
fn count_answer(s: &[u8], c: Counters, answer: WalkAnswer) -> Counted
    requires { Within (length s.now) (said answer) }
    ensures { counted result ≡ counting s.now c (said answer) }
{
    if let WalkAnswer::Record(record) = answer {
        let frame = record.frame;
        let header = frame.head.header;
        return walk_missing::count(c, header.kind, header.subtype, &s[frame.body..frame.end]);
    }
    walk_missing::untold(c)
}

// Whether a walk gives no other answer after this one.
fn is_last(answer: WalkAnswer) -> bool
    ensures { result ≡ is_last (said answer) }
{
    !matches!(answer, WalkAnswer::Record(_) | WalkAnswer::Gap { .. })
}
