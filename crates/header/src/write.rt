// Writing the header: the other way round.
ghost use Rattle.std.specs.Prelude.{◌≡◌};
ghost use Rattle.answer.specs.Writing.{wrote};
ghost use Rattle.octets.specs.Octets.{patch};
ghost use Rattle.header.specs.Write.{common_octets, write_header};

use crate::kind::{is_known, is_timed};
use crate::{CommonHeader, WireLength};
use answer::Refusal;

// The header at the front of the lent output.
#[tactic(auto, using(crate::proofs::Writing::front), unfolding(crate::specs::Write::write_header, crate::specs::Write::unfit))]
pub fn write_header(out: &mut [u8], header: CommonHeader) -> Result<usize, Refusal>
    ensures answer { wrote result out.new ≡ write_header out.old header }
{
    let kind = header.kind;
    let length = header.length;
    let micros = header.micros;
    if !is_known(kind) {
        return Err(Refusal::UnknownType);
    }
    if is_timed(kind) {
        if 4294967291 < length.0 {
            return Err(Refusal::TooLarge);
        }
        if out.len() < 16 {
            return Err(Refusal::NoRoom);
        }
        put_common(out, header, WireLength(length.0 + 4));
        octets::put_be32(out, 12, micros);
        return Ok(16);
    }
    if micros != 0 {
        return Err(Refusal::TooLarge);
    }
    if out.len() < 12 {
        return Err(Refusal::NoRoom);
    }
    put_common(out, header, WireLength(length.0));
    Ok(12)
}

// The twelve octets that every header has.
#[tactic(auto, using(crate::proofs::Writing::common_stored))]
fn put_common(out: &mut [u8], header: CommonHeader, wire: WireLength)
    ensures { out.new ≡ patch out.old 0 (common_octets header wire) }
{
    octets::put_be32(out, 0, header.timestamp);
    octets::put_be16(out, 4, header.kind);
    octets::put_be16(out, 6, header.subtype);
    octets::put_be32(out, 8, wire.0);
}
