// Reading a whole RIB body: its head, and how many of its entries are there.
ghost use Rattle.std.specs.Prelude.{◌≡◌, ◌+◌, ◌≤◌, length};
ghost use Rattle.rib_head.specs.Layout.{prefix_size};
ghost use Rattle.rib_read.specs.Rib.{rib_values, prefix_at, rib_of};

use crate::Rib;
use answer::Refusal;

// The head of a body, with the declared count and how many entries fit.
#[tactic(auto, using(crate::proofs::Bodies::rib_unmet))]
pub fn read_rib(body: &[u8], subtype: u16) -> Result<Rib, Refusal>
    ensures answer { rib_values result ≡ rib_of body.now subtype }
{
    let first = rib_entries::first_entry(body, subtype)?;
    let after = rib_entries::pass_entries(body, subtype, first);
    let bits = octets::octet(body, 4);
    Ok(Rib {
        sequence: octets::be32(body, 0),
        bits,
        prefix: prefix_of(body, bits),
        declared: first.left,
        count: first.left - after.left,
        entries: first.at,
    })
}

// The prefix of a readable head.
fn prefix_of(body: &[u8], bits: u8) -> [u8; 16]
    requires { (bits ≤ 128) × (5 + prefix_size bits ≤ length body.now) }
    ensures { result ≡ prefix_at bits body.now }
{
    let end = 5 + rib_head::prefix_size(bits);
    let mut p = [0u8; 16];
    octets_copies::put_octets(&mut p, 0, &body[5..end]);
    rib_head::clear_after(bits, p)
}
