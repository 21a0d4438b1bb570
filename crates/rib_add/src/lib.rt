// RIB bodies opened for more entries, and given one at their end (RFC 6396, 4.3.4; RFC 8050, 4).
#![tactic(auto)]

ghost use Rattle.std.specs.Prelude.{◌≡◌};
ghost use Rattle.answer.specs.Writing.{wrote};
ghost use Rattle.rib_add.specs.Add.{open_values, open_of, add_entry};

use answer::Refusal;
use rib_write::{Builder, NewEntry};

// One more entry in a body that fills the first len octets of the lent output. The length stands beside it: one beyond it is refused.
#[tactic(auto, unfolding(crate::specs::Add::add_entry))]
pub fn add_entry(
    out: &mut [u8],
    len: usize,
    subtype: u16,
    e: NewEntry,
    attributes: &[u8],
) -> Result<usize, Refusal>
    ensures answer { wrote result out.new ≡ add_entry out.old len subtype e attributes.now }
{
    if out.len() < len {
        return Err(Refusal::Beyond);
    }
    let b = open_rib(&out[..len], subtype)?;
    let next = rib_write::push_entry(out, subtype, b, e, attributes)?;
    Ok(next.len)
}

// A builder at the end of a body that has every declared entry and nothing after them.
#[tactic(auto, unfolding(crate::specs::Add::open_of))]
pub fn open_rib(body: &[u8], subtype: u16) -> Result<Builder, Refusal>
    ensures answer { open_values result ≡ open_of body.now subtype }
{
    let c = rib_entries::after_entries(body, subtype)?;
    let len = body.len();
    if c.left != 0 || c.at != len {
        return Err(Refusal::BodyNotMet);
    }
    let at = rib_head::count_at(body);
    Ok(Builder {
        len,
        at,
        count: octets::be16(body, at),
    })
}
