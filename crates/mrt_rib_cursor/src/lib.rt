// The entries of RIB bodies across the boundary, by number and by a cursor.
#![tactic(auto, using(mrt_lent::proofs::Handing::export_refused))]

ghost use Rattle.std.specs.Prelude.{◌≡◌};
ghost use Rattle.rib_entries.specs.Entry.{entry_values as entered, entry_of, first_of, next_of};
ghost use Rattle.mrt_rib_cursor.specs.Entries.{entry_values, entry_out, placed_out, step_out};

use mrt_lent::{hand_out, refusal};
use rib_entries::{Cursor, Entry};

// The values of an entry, in the order of its fields.
pub fn entry_values(e: Entry) -> [u64; 5]
    ensures { result ≡ entry_values (entered (Ok e)) }
{
    [
        e.peer as u64,
        e.originated as u64,
        e.path as u64,
        e.start as u64,
        e.end as u64,
    ]
}

// The entry i of a RIB body.
pub fn mrt_rib_entry(body: &[u8], subtype: u16, i: usize, out: &mut [u64]) -> u32
    ensures answer { (out.new, result) ≡ entry_out out.old (entry_of body.now subtype i) }
{
    match rib_entries::entry_at(body, subtype, i) {
        Err(r) => refusal(r),
        Ok(e) => hand_out(out, &entry_values(e)),
    }
}

// The cursor at the first entry of a RIB body.
pub fn mrt_rib_first(body: &[u8], subtype: u16, out: &mut [u64]) -> u32
    ensures answer { (out.new, result) ≡ placed_out out.old (first_of body.now subtype) }
{
    match rib_entries::first_entry(body, subtype) {
        Err(r) => refusal(r),
        Ok(c) => hand_out(out, &[c.at as u64, c.left as u64]),
    }
}

// The entry at a cursor, and the cursor after it.
pub fn mrt_rib_next(body: &[u8], subtype: u16, at: usize, left: u16, out: &mut [u64]) -> u32
    ensures answer { (out.new, result)
        ≡ step_out out.old (next_of body.now subtype (record { at = at; left = left })) }
{
    match rib_entries::next_entry(body, subtype, Cursor { at, left }) {
        Err(r) => refusal(r),
        Ok(None) => hand_out(out, &[0; 8]),
        Ok(Some(next)) => {
            let [peer, originated, path, start, end] = entry_values(next.entry);
            let at = next.cursor.at as u64;
            let left = next.cursor.left as u64;
            hand_out(out, &[1, peer, originated, path, start, end, at, left])
        }
    }
}
