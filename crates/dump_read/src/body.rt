// Reading a whole body: its fields, and where its attributes stand.
ghost use Rattle.std.specs.Prelude.{◌≡◌, ◌≤◌, eqb, length};
ghost use Rattle.octets_address.specs.Address.{size_of};
ghost use Rattle.dump_layout.specs.Layout.{attributes_at, dump_at};
ghost use Rattle.dump_read.specs.Read.{dump_of, reading};

use crate::DumpRead;
use answer::Refusal;
use dump_layout::Dump;

// The fields of a body, and where its attributes stand. A body that passes has a size of its addresses.
#[tactic(auto, using(octets_address::proofs::Addresses::found_le))]
pub fn read_dump(body: &[u8], subtype: u16) -> Result<DumpRead, Refusal>
    ensures answer { reading result ≡ dump_of body.now subtype }
{
    dump_layout::check_dump(body, subtype)?;
    let x = octets_address::address_size(subtype).unwrap();
    let start = 14 + 2 * x;
    Ok(DumpRead {
        dump: fields(body, x),
        start,
        end: body.len(),
    })
}

// What stands before the attributes, by parts whose lengths are written out, so that no octet is tested by itself.
fn fields(body: &[u8], x: usize) -> Dump
    requires { (size_of (eqb x 16) ≡ x) × (attributes_at x ≤ length body.now) }
    ensures { result ≡ dump_at x body.now }
{
    let start = 4 + x;
    let front = 10 + x;
    let at = 10 + 2 * x;
    let end = 12 + 2 * x;
    let head = &body[..4];
    let middle = &body[start..front];
    let bits = octets::octet(middle, 0);
    Dump {
        view: octets::be16(head, 0),
        sequence: octets::be16(head, 2),
        prefix: octets_address::read_address(body, 4, x == 16),
        bits,
        status: octets::octet(middle, 1),
        originated: octets::be32(middle, 2),
        peer: octets_address::read_address(body, front, x == 16),
        asn: octets::be16(&body[at..end], 0) as u32,
    }
}
