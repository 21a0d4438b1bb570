// Rows of values into lent places.
ghost use Rattle.std.specs.Prelude.{◌≡◌, ◌/◌, ℕ, List, Option, length};
ghost use Rattle.mrt_lent.specs.Rows.{Turn, rows_from, rows_out};

// What hands out rows of N values: at most one from where it stands, with where to go on after it. A trait and no closure: the
// contract of a call then names what the turn finds.
pub trait Source<const N: usize> {
    type At: Copy;

    ghost turn: { Self → Self.At → Turn Self.At };

    fn turn(&self, at: Self::At) -> Option<([u64; N], Self::At)>
        ensures { result ≡ turn self.now at };
}

// How many rows are handed out, and where to go on after them.
#[derive(Clone, Copy)]
pub struct Taken<S> {
    pub count: u64,
    pub next: S,
}

// Rows from a place on, as long as there are rows and places for them. Of what is written through `chunks_exact_mut` the library
// says nothing afterwards, so the places of a row are named here.
pub fn hand_rows<const N: usize, R: Source<N>>(
    out: &mut [u64],
    rows: &R,
    from: R::At,
) -> Taken<R::At>
    ensures { (out.new, (result.count, result.next))
        ≡ rows_out out.old (rows_from (R.turn rows.now) (length out.old / N) from) }
{
    let mut next = from;
    if N == 0 {
        return Taken { count: 0, next };
    }
    let most = out.len() / N;
    for i in 0..most {
        let Some(row) = rows.turn(next) else {
            return Taken {
                count: i as u64,
                next,
            };
        };
        let values = row.0;
        let at = i * N;
        crate::put_values(&mut out[at..at + N], &values);
        next = row.1;
    }
    Taken {
        count: most as u64,
        next,
    }
}
