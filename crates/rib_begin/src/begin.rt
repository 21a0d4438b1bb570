// A body with no entry.
ghost use Rattle.std.specs.Prelude.{◌≡◌, ◌≤◌};
ghost use Rattle.answer.specs.Writing.{wrote};
ghost use Rattle.octets.specs.Octets.{patch};
ghost use Rattle.rib_begin.specs.Layout.{head_octets};
ghost use Rattle.rib_begin.specs.Begin.{begin_rib};

use answer::Refusal;

// A body with no entry at the front of the lent output.
#[tactic(auto, unfolding(crate::specs::Begin::begin_rib))]
pub fn begin_rib(
    out: &mut [u8],
    subtype: u16,
    sequence: u32,
    bits: u8,
    prefix: [u8; 16],
) -> Result<usize, Refusal>
    ensures answer { wrote result out.new ≡ begin_rib out.old subtype sequence bits prefix }
{
    let l = rib_head::layout_of(subtype).ok_or(Refusal::OtherSubtype)?;
    if l.most < bits {
        return Err(Refusal::TooLarge);
    }
    let size = rib_head::prefix_size(bits);
    if out.len() < 7 + size {
        return Err(Refusal::NoRoom);
    }
    put_head(out, sequence, bits, prefix);
    Ok(7 + size)
}

// The head of a body with no entry.
fn put_head(out: &mut [u8], sequence: u32, bits: u8, prefix: [u8; 16])
    requires { bits ≤ 128 }
    ensures { out.new ≡ patch out.old 0 (head_octets sequence bits prefix 0) }
{
    let size = rib_head::prefix_size(bits);
    let p = rib_head::clear_after(bits, prefix);
    octets::put_be32(out, 0, sequence);
    octets::put_octet(out, 4, bits);
    octets_copies::put_octets(out, 5, &p[..size]);
    octets::put_be16(out, 5 + size, 0);
}
