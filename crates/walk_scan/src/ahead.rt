// Distances that a scan passes over.
ghost use Rattle.std.specs.Prelude.{◌≡◌, ◌+◌, ◌-◌, ◌<◌, ◌≤◌, length, false};
ghost use Rattle.rules.specs.Ask.{over};
ghost use Rattle.walk.specs.Judged.{fails};
ghost use Rattle.walk_candidate.specs.Candidate.{candidate_at};
ghost use Rattle.walk_scan.specs.Sight.{Passed, Next, Clear};

// The distances from p that a scan still looks at: after `from`, up to `last`, where a header has room.
#[derive(Clone, Copy)]
pub(crate) struct Ahead<'a> {
    pub s: &'a [u8],
    pub p: usize,
    pub from: usize,
    pub last: usize,
    ghost within: { (from ≤ last) × (last ≤ length s.now - p - 12) },
}

impl Ahead<'_> {
    // The next distance that may begin a candidate. Where candidates are near, or octets that look like theirs, distances are looked at
    // one by one; blocks are asked only after so many of them, and the next distance is where they end: it is no counter.
    pub(crate) fn pass_over(self) -> Option<usize>
        ensures { Next self.entry.s.now self.entry.p self.entry.from self.entry.last result }
    {
        let mut d = self.from;
        while d < self.last {
            let near = Ahead {
                s: self.s,
                p: self.p,
                from: d,
                last: d + (self.last - d).min(64),
            };
            if let Some(next) = near.pass_each() {
                return Some(next);
            }
            let beyond = Ahead {
                s: self.s,
                p: self.p,
                from: near.last,
                last: self.last,
            };
            d = beyond.pass_blocks();
        }
        None
    }

    // The same, one by one.
    fn pass_each(self) -> Option<usize>
        ensures { Next self.entry.s.now self.entry.p self.entry.from self.entry.last result }
    {
        for d in self.from..self.last {
            if mark_at(self.s, self.p + (d + 1)) {
                return Some(d + 1);
            }
        }
        None
    }

    // The distance up to which blocks of sixty-four hold no candidate: up to one that may, or the last whole one. Blocks are
    // taken as long as there is room for one, with no division to say how many.
    fn pass_blocks(self) -> usize
        ensures { (self.entry.from ≤ result) × (result ≤ self.entry.last) × Passed self.entry.s.now self.entry.p self.entry.from result }
    {
        let mut d = self.from;
        while 64 <= self.last - d {
            if marked(self.s, self.p + (d + 1)) != 0 {
                return d;
            }
            d += 64;
        }
        d
    }
}

// How many of sixty-four offsets have a type and a length that may be a candidate's, by four octets. None is left out, so that the
// compiler takes sixteen at once.
fn marked(s: &[u8], at: usize) -> u8
    requires { at + 75 ≤ length s.now }
    ensures { result ≡ 0 → Clear s.now at 64 }
{
    let mut count = 0;
    for i in 0..64 {
        count += u8::from(mark_at(s, at + i));
    }
    count
}

// Whether a candidate may begin at an offset.
#[tactic(auto, using(walk_candidate::proofs::Candidates::candidate_unmarked))]
fn mark_at(s: &[u8], at: usize) -> bool
    requires { at + 12 ≤ length s.now }
    ensures { result ≡ false → fails ≡ over s.now (candidate_at at) }
{
    mark(s[at + 4], s[at + 5], s[at + 8], s[at + 9])
}

// Whether the octets of a type and the first two of a length may be a candidate's. Most offsets fail by the first, and of the others
// most by the length.
fn mark(high: u8, low: u8, huge: u8, large: u8) -> bool
    ensures { result ≡ false → high ≡ 0 → 16 ≤ low → low ≤ 17 → huge ≡ 0 → 1 < large }
{
    high == 0 && huge == 0 && large <= 1 && 16 <= low && low <= 17
}
