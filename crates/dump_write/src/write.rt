// Writing a whole body.
ghost use Rattle.std.specs.Prelude.{◌≡◌, ◌<◌, ◌≤◌, MatchResult, eqb, length};
ghost use Rattle.answer.specs.Writing.{wrote};
ghost use Rattle.answer.specs.declared.Refusal.TheVariants.{TooLarge};
ghost use Rattle.octets.specs.Octets.{patch};
ghost use Rattle.octets_address.specs.Address.{size_of};
ghost use Rattle.dump_layout.specs.Layout.{attributes_at, head_octets};
ghost use Rattle.dump_write.specs.Write.{write_dump};

use answer::Refusal;
use dump_layout::Dump;

// A body at the front of the lent output.
#[tactic(auto, using(octets_address::proofs::Addresses::found_le, crate::proofs::Answers::write_other))]
pub fn write_dump(
    out: &mut [u8],
    subtype: u16,
    d: Dump,
    attributes: &[u8],
) -> Result<usize, Refusal>
    ensures answer { wrote result out.new ≡ write_dump out.old subtype d attributes.now }
{
    let x = octets_address::address_size(subtype).ok_or(Refusal::OtherSubtype)?;
    if 8 * x < d.bits as usize {
        return Err(Refusal::TooLarge);
    }
    let n = attributes.len();
    let asn = narrow(d.asn as usize)?;
    let count = narrow(n)?;
    let start = 14 + 2 * x;
    if out.len() < start + n {
        return Err(Refusal::NoRoom);
    }
    put_fields(out, x, d, asn, count);
    octets_copies::put_octets(out, start, attributes);
    Ok(start + n)
}

// A number in a field of two octets.
fn narrow(n: usize) -> Result<u16, Refusal>
    ensures { MatchResult result (λ v. (v ≡ n) × (n ≤ 65535)) (λ r. (r ≡ TooLarge) × (65535 < n)) }
{
    u16::try_from(n).map_err(|_| Refusal::TooLarge)
}

// What stands before the attributes, with the AS and the length of the attributes in two octets.
#[tactic(auto, using(octets_address::proofs::Addresses::size_most))]
fn put_fields(out: &mut [u8], x: usize, d: Dump, asn: u16, count: u16)
    requires { (size_of (eqb x 16) ≡ x) × (attributes_at x ≤ length out.old) × (asn ≡ d.asn) }
    ensures { out.new ≡ patch out.old 0 (head_octets x d count) }
{
    octets::put_be16(out, 0, d.view);
    octets::put_be16(out, 2, d.sequence);
    octets_address::put_address(out, 4, d.prefix, x == 16);
    octets::put_octet(out, 4 + x, d.bits);
    octets::put_octet(out, 5 + x, d.status);
    octets::put_be32(out, 6 + x, d.originated);
    octets_address::put_address(out, 10 + x, d.peer, x == 16);
    octets::put_be16(out, 10 + 2 * x, asn);
    octets::put_be16(out, 12 + 2 * x, count);
}
