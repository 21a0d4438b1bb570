// The values of a record.
ghost use Rattle.std.specs.Prelude.{◌≡◌, ◌∷◌};
ghost use Rattle.header.specs.Frame.{framing_of};
ghost use Rattle.mrt_lent.specs.Records.{frame_values};

use header::Located;

// The values of a record after the kind of an answer: where it starts, its header's, and where its body starts and ends.
pub fn record_values(answer: u64, found: Located) -> [u64; 10]
    ensures { result ≡ answer ∷ found.start ∷ frame_values (framing_of found.frame) }
{
    let frame = found.frame;
    let head = frame.head;
    let header = head.header;
    let wire = head.wire;
    let length = header.length;
    [
        answer,
        found.start as u64,
        header.timestamp as u64,
        header.kind as u64,
        header.subtype as u64,
        wire.0 as u64,
        length.0 as u64,
        header.micros as u64,
        frame.body as u64,
        frame.end as u64,
    ]
}
