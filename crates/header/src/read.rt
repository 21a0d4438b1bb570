// Reading the header. The stored length is what the wire length leaves of the body.
ghost use Rattle.std.specs.Prelude.{◌≡◌};
ghost use Rattle.rules.specs.Ask.{over};
ghost use Rattle.header.specs.Read.{header, header_at, values};

use crate::kind::{is_known, is_timed};
use crate::{CommonHeader, Headed, StoredLength, WireLength};
use answer::Refusal;

// The header at an offset of a stream.
pub fn read_header(s: &[u8], at: usize) -> Result<Headed, Refusal>
    ensures answer { values result ≡ header_at s.now at }
{
    if s.len() < at {
        return Err(Refusal::Beyond);
    }
    read_front(&s[at..])
}

// The header at the front.
fn read_front(s: &[u8]) -> Result<Headed, Refusal>
    ensures answer { values result ≡ over s.now header }
{
    let n = s.len();
    if n < 12 {
        return Err(Refusal::TruncatedHeader);
    }
    let timestamp = octets::be32(s, 0);
    let kind = octets::be16(s, 4);
    let subtype = octets::be16(s, 6);
    let wire = WireLength(octets::be32(s, 8));
    let mut length = StoredLength(wire.0);
    let mut micros = 0;
    if !is_known(kind) {
        return Err(Refusal::UnknownType);
    }
    if is_timed(kind) {
        if wire.0 < 4 {
            return Err(Refusal::ShortLength);
        }
        if n < 16 {
            return Err(Refusal::TruncatedHeader);
        }
        length = StoredLength(wire.0 - 4);
        micros = octets::be32(s, 12);
    }
    let header = CommonHeader {
        timestamp,
        kind,
        subtype,
        length,
        micros,
    };
    Ok(Headed { header, wire })
}
