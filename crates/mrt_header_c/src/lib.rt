// For C and Rust: the functions of `mrt_header` that they call, under their own names. Each promises the same.
#![tactic(auto)]

ghost use Rattle.std.specs.Prelude.{◌≡◌};
ghost use Rattle.header.specs.Read.{header_at};
ghost use Rattle.header.specs.Frame.{frame_at};
ghost use Rattle.header.specs.Write.{write_header};
ghost use Rattle.mrt_lent.specs.Writer.{written_out};
ghost use Rattle.mrt_header.specs.Records.{read_out, framed_out};

use mrt_lent::Wrote;

// The header at an offset of a stream.
#[unsafe(no_mangle)]
pub extern "C" fn mrt_read_header(s: &[u8], at: usize, out: &mut [u64]) -> u32
    ensures answer { (out.new, result) ≡ read_out out.old (header_at s.now at) }
{
    mrt_header::mrt_read_header(s, at, out)
}

// The record at an offset of a stream, framed.
#[unsafe(no_mangle)]
pub extern "C" fn mrt_frame(s: &[u8], at: usize, out: &mut [u64]) -> u32
    ensures answer { (out.new, result) ≡ framed_out out.old (frame_at s.now at) }
{
    mrt_header::mrt_frame(s, at, out)
}

// A header at the front of the lent output.
#[unsafe(no_mangle)]
pub extern "C" fn mrt_write_header(
    out: &mut [u8],
    timestamp: u32,
    kind: u16,
    subtype: u16,
    stored: u32,
    micros: u32,
) -> Wrote
    ensures answer { (out.new, result) ≡ written_out (write_header out.old
        (record { timestamp = timestamp; kind = kind; subtype = subtype; length = record { 0 = stored }; micros = micros })) }
{
    mrt_header::mrt_write_header(out, timestamp, kind, subtype, stored, micros)
}
