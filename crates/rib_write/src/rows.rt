// Entries by rows: the values of each as they are handed out, its attributes a part of one buffer.
ghost use Rattle.std.specs.Prelude.{◌≡◌, ◌+◌, ◌*◌, ◌/◌, ◌%◌, ◌<◌, ◌≤◌, cond, length, take};
ghost use Rattle.rib_head.specs.Layout.{pathed, path_size};
ghost use Rattle.rib_write.specs.Push.{standing};
ghost use Rattle.rib_write.specs.Rows.{rows_values, rowed, push_rows, push_entries};
ghost use Rattle.rib_write.specs.Steps.{put_row, closed};

use crate::push::{check_builder, put_entry};
use crate::{Builder, Pushed};
use answer::Refusal;

// Rows pushed where a builder stands, as long as a push of each would be accepted.
#[tactic(auto, unfolding(crate::specs::Rows::push_entries))]
pub fn push_entries(
    out: &mut [u8],
    subtype: u16,
    b: Builder,
    rows: &[u64],
    attributes: &[u8],
) -> Result<Pushed, Refusal>
    ensures answer { rows_values result out.new
        ≡ push_entries out.old subtype b rows.now attributes.now }
{
    if rows.len() % 5 != 0 || out.len() < b.len {
        return Err(Refusal::Beyond);
    }
    check_builder(&out[..b.len], subtype, b)?;
    Ok(push_rows(out, subtype, b, rows, attributes))
}

// The rows of a builder that stands. The count is stored once, after all of them: a loop with less to keep is faster. By place:
// a `for` over parts of five, by `as_chunks` or `chunks_exact`, takes longer.
fn push_rows(out: &mut [u8], subtype: u16, b: Builder, rows: &[u64], attributes: &[u8]) -> Pushed
    requires { (b.len ≤ length out.old) × (standing (take b.len out.old) subtype b ≡ 0) × (length rows.now % 5 ≡ 0) }
    ensures { rows_values (Ok result) out.new
        ≡ rowed (push_rows (length rows.now / 5) out.old subtype b rows.now 0 attributes.now) }
{
    let stop = rows.len().min(5 * usize::from(65535 - b.count));
    let mut len = b.len;
    let mut place: usize = 0;
    while place < stop {
        let row = &rows[place..place + 5];
        let Some(size) = put_row(&mut out[len..], subtype, row, attributes) else {
            break;
        };
        len += size;
        place += 5;
    }
    close_rows(out, b, len, place)
}

// The count of a body that was given the rows before a place, and now has so many octets.
fn close_rows(out: &mut [u8], b: Builder, len: usize, place: usize) -> Pushed
    requires { b.count + place / 5 < 65536 }
    ensures { (out.new, result) ≡ closed out.old b len (place / 5) }
{
    let rows = (place / 5) as u16;
    let count = b.count + rows;
    octets::put_be16(out, b.at, count);
    Pushed {
        builder: Builder {
            len,
            at: b.at,
            count,
        },
        rows,
    }
}

// A row as an entry at the front of a part, and how many octets it takes, or none where it is refused.
fn put_row(part: &mut [u8], subtype: u16, row: &[u64], attributes: &[u8]) -> Option<usize>
    requires { 5 ≤ length row.now }
    ensures { (part.new, result) ≡ put_row part.old (path_size subtype) row.now 0 attributes.now }
{
    if row[0] / 65536 + row[1] / 4294967296 != 0 {
        return None;
    }
    if most_path(subtype) < row[2] {
        return None;
    }
    let start = row[3] as usize;
    let end = row[4] as usize;
    if end < start {
        return None;
    }
    if attributes.len() < end {
        return None;
    }
    let m = end - start;
    if 65535 < m {
        return None;
    }
    let size = 8 + rib_head::path_size(subtype) + m;
    if part.len() < size {
        return None;
    }
    put_entry(&mut part[..size], subtype, row, &attributes[start..end]);
    Some(size)
}

// The greatest path number that a row may have.
fn most_path(subtype: u16) -> u64
    ensures { result ≡ cond (pathed subtype) 4294967295 0 }
{
    if rib_head::has_path(subtype) {
        4294967295
    } else {
        0
    }
}
