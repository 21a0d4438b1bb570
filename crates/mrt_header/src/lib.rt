// Headers and framing across the boundary.
#![tactic(auto)]

ghost use Rattle.std.specs.Prelude.{◌≡◌};
ghost use Rattle.header.specs.Read.{header_at};
ghost use Rattle.header.specs.Frame.{frame_at};
ghost use Rattle.header.specs.Write.{write_header};
ghost use Rattle.mrt_lent.specs.Writer.{written_out};
ghost use Rattle.mrt_header.specs.Records.{read_out, framed_out};

use header::{CommonHeader, Framed, Located, StoredLength};
use mrt_lent::Wrote;

// The header at an offset of a stream.
pub fn mrt_read_header(s: &[u8], at: usize, out: &mut [u64]) -> u32
    ensures answer { (out.new, result) ≡ read_out out.old (header_at s.now at) }
{
    match header::read_header(s, at) {
        Err(r) => mrt_lent::refusal(r),
        Ok(head) => {
            let frame = Framed {
                head,
                body: 0,
                end: 0,
            };
            let v = mrt_lent::record_values(0, Located { start: 0, frame });
            mrt_lent::hand_out(out, &v[2..8])
        }
    }
}

// The record at an offset of a stream, framed.
pub fn mrt_frame(s: &[u8], at: usize, out: &mut [u64]) -> u32
    ensures answer { (out.new, result) ≡ framed_out out.old (frame_at s.now at) }
{
    match header::frame_record(s, at) {
        Err(r) => mrt_lent::refusal(r),
        Ok(frame) => {
            let v = mrt_lent::record_values(0, Located { start: 0, frame });
            mrt_lent::hand_out(out, &v[2..])
        }
    }
}

// A header at the front of the lent output.
pub fn mrt_write_header(
    out: &mut [u8],
    timestamp: u32,
    kind: u16,
    subtype: u16,
    stored: u32,
    micros: u32,
) -> Wrote
    ensures answer { (out.new, result) ≡ written_out (write_header out.old
        (record { timestamp = timestamp; kind = kind; subtype = subtype; length = record { 0 = stored }; micros = micros })) }
{
    let header = CommonHeader {
        timestamp,
        kind,
        subtype,
        length: StoredLength(stored),
        micros,
    };
    mrt_lent::wrote_of(header::write_header(out, header))
}
