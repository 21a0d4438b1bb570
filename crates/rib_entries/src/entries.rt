// The entries of a body, by number and by a cursor.
ghost use Rattle.std.specs.Prelude.{◌≡◌};
ghost use Rattle.octets.specs.Octets.{be_at};
ghost use Rattle.rib_head.specs.Layout.{path_size};
ghost use Rattle.rib_entries.specs.Entry.{passed, entry_values, entry_of, step_at};
ghost use Rattle.rib_entries.specs.Entry.{cursor_values, first_of, after_of, next_values, next_of};
ghost use Rattle.rib_entries.specs.Steps.{read_at};

use crate::{Cursor, Entry, Next};
use answer::Refusal;

// The entry i.
#[tactic(auto, using(crate::proofs::Steps::entry_unmet))]
pub fn entry_at(body: &[u8], subtype: u16, i: usize) -> Result<Entry, Refusal>
    ensures answer { entry_values result ≡ entry_of body.now subtype i }
{
    let first = first_entry(body, subtype)?;
    if usize::from(first.left) <= i {
        return Err(Refusal::Beyond);
    }
    let before = Cursor {
        at: first.at,
        left: i as u16,
    };
    let c = pass_entries(body, subtype, before);
    read_entry(body, subtype, c.at).ok_or(Refusal::Beyond)
}

// The cursor at the first entry.
#[tactic(auto, unfolding(crate::specs::Entry::first_of, crate::specs::Entry::placed))]
pub fn first_entry(body: &[u8], subtype: u16) -> Result<Cursor, Refusal>
    ensures answer { cursor_values result ≡ first_of body.now subtype }
{
    rib_head::check_rib(body, subtype)?;
    let at = rib_head::count_at(body);
    Ok(Cursor {
        at: at + 2,
        left: octets::be16(body, at),
    })
}

// The cursor where reading stops.
#[tactic(auto, unfolding(crate::specs::Entry::after_of, crate::specs::Entry::first_of, crate::specs::Entry::placed))]
pub fn after_entries(body: &[u8], subtype: u16) -> Result<Cursor, Refusal>
    ensures answer { cursor_values result ≡ after_of body.now subtype }
{
    let first = first_entry(body, subtype)?;
    Ok(pass_entries(body, subtype, first))
}

// The entry at a cursor, with the cursor after it, or none at the end. Reading an entry asks for the place of the cursor too: one test
// serves both.
#[tactic(auto, unfolding(crate::specs::Entry::next_of))]
pub fn next_entry(body: &[u8], subtype: u16, c: Cursor) -> Result<Option<Next>, Refusal>
    ensures answer { next_values result ≡ next_of body.now subtype c }
{
    if body.len() < c.at {
        return Err(Refusal::Beyond);
    }
    rib_head::layout_of(subtype).ok_or(Refusal::OtherSubtype)?;
    Ok(step(body, subtype, c))
}

// The cursor after the entries of a cursor, as far as they fit: step by step, with no index.
pub fn pass_entries(body: &[u8], subtype: u16, mut c: Cursor) -> Cursor
    ensures answer { result ≡ passed (path_size subtype) body.now c.at c.left }
{
    while let Some(next) = step(body, subtype, c) {
        c = next.cursor;
    }
    c
}

// The entry at a cursor, where one is left and fits, and the cursor after it.
#[tactic(auto, unfolding(crate::specs::Entry::step_at, crate::specs::Steps::read_at))]
fn step(body: &[u8], subtype: u16, c: Cursor) -> Option<Next>
    ensures { result ≡ step_at (path_size subtype) body.now c }
{
    let left = c.left.checked_sub(1)?;
    let entry = read_entry(body, subtype, c.at)?;
    let cursor = Cursor {
        at: entry.end,
        left,
    };
    Some(Next { entry, cursor })
}

// The entry that starts at an offset, where it fits.
fn read_entry(body: &[u8], subtype: u16, at: usize) -> Option<Entry>
    ensures { result ≡ read_at (path_size subtype) body.now at }
{
    let n = body.len();
    let size = 8 + rib_head::path_size(subtype);
    if n < at || n - at < size {
        return None;
    }
    let start = at + size;
    let head = &body[at..start];
    let length = usize::from(octets::be16(head, size - 2));
    if n - start < length {
        return None;
    }
    Some(Entry {
        peer: octets::be16(head, 0),
        originated: octets::be32(head, 2),
        path: path_number(head, subtype),
        start,
        end: start + length,
    })
}

// The path number in an entry's head, 0 where it has none.
#[tactic(auto, unfolding(rib_head::specs::Layout::path_size, octets::specs::Octets::be_at))]
fn path_number(head: &[u8], subtype: u16) -> u32
    ensures { result ≡ be_at head.now 6 (path_size subtype) }
{
    if rib_head::has_path(subtype) {
        octets::be32(head, 6)
    } else {
        0
    }
}
