// The record that a header frames.
ghost use Rattle.std.specs.Prelude.{◌≡◌};
ghost use Rattle.header.specs.Read.{heading_of};
ghost use Rattle.header.specs.Frame.{frame_at, frame_of, framing};

use crate::kind::header_size;
use crate::read::read_header;
use crate::{Framed, Headed};
use answer::Refusal;

// The record at an offset of a stream.
pub fn frame_record(s: &[u8], at: usize) -> Result<Framed, Refusal>
    ensures answer { framing result ≡ frame_at s.now at }
{
    let head = read_header(s, at)?;
    frame_of(s, at, head)
}

// The record of a header that has been read at an offset.
pub fn frame_of(s: &[u8], at: usize, head: Headed) -> Result<Framed, Refusal>
    ensures answer { framing result ≡ frame_of s.now at (heading_of head) }
{
    let n = s.len();
    if n < at {
        return Err(Refusal::Beyond);
    }
    let header = head.header;
    let length = header.length;
    let size = header_size(header.kind);
    let octets = size + length.0 as usize;
    if n - at < octets {
        return Err(Refusal::TruncatedBody);
    }
    Ok(Framed {
        head,
        body: at + size,
        end: at + octets,
    })
}
