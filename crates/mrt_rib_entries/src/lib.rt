// Entries of a RIB body across the boundary, many by one call. Apart from the other reading: the step of the cursor then has one
// caller, which the compiler takes it into, so that no entry goes through memory but the lent places.
#![tactic(auto)]

ghost use Rattle.std.specs.Prelude.{◌≡◌, cond};
ghost use Rattle.mrt_rib_entries.specs.Entries.{entries_out, entry_at, holds_cursor, cursor_in};

use answer::Refusal;
use mrt_lent::{Handed, Source, none_handed, put_values, refusal};
use rib_entries::Cursor;

// The entries of a body.
#[derive(Clone, Copy)]
struct Entries<'a> {
    body: &'a [u8],
    subtype: u16,
}

impl Source<5> for Entries<'_> {
    type At = Cursor;

    ghost turn = { λ e. entry_at e.body.now e.subtype };

    // The entry at a cursor, and the cursor after it.
    #[tactic(auto, unfolding(crate::specs::Entries::entry_at))]
    fn turn(&self, c: Cursor) -> Option<([u64; 5], Cursor)> {
        let Ok(Some(next)) = rib_entries::next_entry(self.body, self.subtype, c) else {
            return None;
        };
        let v = mrt_rib_cursor::entry_values(next.entry);
        Some((v, next.cursor))
    }
}

// Entries from a lent cursor on, as long as there are entries and each has five places. The cursor is moved past them.
#[tactic(auto, unfolding(crate::specs::Entries::entries_out))]
pub fn mrt_rib_entries(body: &[u8], subtype: u16, cursor: &mut [u64], out: &mut [u64]) -> Handed
    ensures answer { (cursor.new, (out.new, result))
        ≡ entries_out body.now subtype cursor.old out.old }
{
    let Some(from) = lent_cursor(body, cursor) else {
        return none_handed(refusal(Refusal::Beyond));
    };
    if rib_head::layout_of(subtype).is_none() {
        return none_handed(refusal(Refusal::OtherSubtype));
    }
    if out.len() < 5 {
        return none_handed(refusal(Refusal::NoRoom));
    }
    let taken = mrt_lent::hand_rows(out, &Entries { body, subtype }, from);
    let next = taken.next;
    put_values(cursor, &[next.at as u64, u64::from(next.left)]);
    Handed {
        count: taken.count,
        refusal: 0,
    }
}

// The cursor in two lent places, where the body has the one and the other is within its width. Both are read before either is tested:
// with `try_from` the loop of entries came to stand where it takes longer.
#[tactic(auto, unfolding(crate::specs::Entries::holds_cursor))]
fn lent_cursor(body: &[u8], places: &[u64]) -> Option<Cursor>
    ensures { result ≡ cond (holds_cursor body.now places.now) (Some (cursor_in places.now)) None }
{
    if places.len() < 2 {
        return None;
    }
    let at = places[0] as usize;
    let left = places[1];
    if 65535 < left || body.len() < at {
        return None;
    }
    Some(Cursor {
        at,
        left: left as u16,
    })
}
