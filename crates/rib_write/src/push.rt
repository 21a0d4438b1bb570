// One more entry where a builder stands.
ghost use Rattle.std.specs.Prelude.{◌≡◌, ◌+◌, ◌≤◌, length};
ghost use Rattle.rib_head.specs.Layout.{path_size};
ghost use Rattle.answer.specs.Refusal.{outcome_number};
ghost use Rattle.octets.specs.Octets.{bytes_of, patch};
ghost use Rattle.rib_write.specs.Layout.{entry_octets};
ghost use Rattle.rib_write.specs.Push.{unfit, pushed, standing, push_after, push_entry};
ghost use Rattle.rib_write.specs.Rows.{entry_in};

use crate::{Builder, NewEntry};
use answer::Refusal;

// One more entry where a builder stands. The entries before it are not looked at.
#[tactic(auto, unfolding(crate::specs::Push::push_entry))]
pub fn push_entry(
    out: &mut [u8],
    subtype: u16,
    b: Builder,
    e: NewEntry,
    attributes: &[u8],
) -> Result<Builder, Refusal>
    ensures answer { pushed result out.new ≡ push_entry out.old subtype b e attributes.now }
{
    if out.len() < b.len {
        return Err(Refusal::Beyond);
    }
    check_builder(&out[..b.len], subtype, b)?;
    push_after(out, subtype, b, e, attributes)
}

// Whether a builder is one of a body: the head can be read, and its count is where the builder has it, and the same.
#[tactic(auto, unfolding(crate::specs::Push::standing))]
pub(crate) fn check_builder(body: &[u8], subtype: u16, b: Builder) -> Result<(), Refusal>
    ensures { outcome_number result ≡ standing body.now subtype b }
{
    rib_head::check_rib(body, subtype)?;
    let at = rib_head::count_at(body);
    if b.at != at || b.count != octets::be16(body, at) {
        return Err(Refusal::BodyNotMet);
    }
    Ok(())
}

// One more entry after the octets of a builder's body.
#[tactic(auto, unfolding(crate::specs::Push::push_after, crate::specs::Push::unfit))]
fn push_after(
    out: &mut [u8],
    subtype: u16,
    b: Builder,
    e: NewEntry,
    attributes: &[u8],
) -> Result<Builder, Refusal>
    requires { b.len ≤ length out.old }
    ensures { pushed result out.new ≡ push_after out.old subtype b e attributes.now }
{
    let n = out.len();
    let m = attributes.len();
    let len = b.len;
    if is_unfit(b.count, subtype, e.path, m) {
        return Err(Refusal::TooLarge);
    }
    let size = 8 + rib_head::path_size(subtype) + m;
    if n - len < size {
        return Err(Refusal::NoRoom);
    }
    let end = len + size;
    let count = b.count + 1;
    let row = [e.peer as u64, e.originated as u64, e.path as u64];
    put_entry(&mut out[len..end], subtype, &row, attributes);
    octets::put_be16(out, b.at, count);
    Ok(Builder {
        len: end,
        at: b.at,
        count,
    })
}

// Whether a value does not fit its field: one entry more, the path number, the attributes' length.
#[tactic(auto, unfolding(crate::specs::Push::unfit, rib_head::specs::Layout::path_size))]
fn is_unfit(count: u16, subtype: u16, path: u32, m: usize) -> bool
    ensures { result ≡ unfit count subtype path m }
{
    count == 65535 || 65535 < m || (!rib_head::has_path(subtype) && path != 0)
}

// The entry of a row in the part that it fills. The values are read between the stores, which lets the compiler make one store of each
// number.
pub(crate) fn put_entry(part: &mut [u8], subtype: u16, row: &[u64], attributes: &[u8])
    requires { 3 ≤ length row.now }
    ensures { part.new ≡ patch part.old 0 (entry_octets (path_size subtype) (entry_in row.now 0) attributes.now) }
{
    let path = rib_head::path_size(subtype);
    octets_copies::store16(part, 0, (row[0] % 65536) as u16);
    octets_copies::store32(part, 2, (row[1] % 4294967296) as u32);
    put_path(part, subtype, (row[2] % 4294967296) as u32);
    octets_copies::store16(part, 6 + path, (attributes.len() % 65536) as u16);
    octets_copies::put_octets(part, 8 + path, attributes);
}

// The path number, if there is one.
#[tactic(auto, unfolding(rib_head::specs::Layout::path_size, octets::specs::Octets::patch, octets::specs::Octets::bytes_of))]
fn put_path(part: &mut [u8], subtype: u16, v: u32)
    ensures { part.new ≡ patch part.old 6 (bytes_of (path_size subtype) v) }
{
    if rib_head::has_path(subtype) {
        octets_copies::store32(part, 6, v);
    }
}
