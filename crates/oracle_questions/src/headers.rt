// Headers and records. A question's numbers are in x, its octets in a; the answer goes into out, and its length is returned.
// Of a number in x that is narrower than eight octets the last octets are read.
use crate::put::{lend, number, numbers, refused};
use answer::Refusal;
use header::{CommonHeader, Framed, StoredLength};

// A header, and where its body starts and ends.
fn put_record(out: &mut [u8], found: Result<Framed, Refusal>) -> usize {
    match found {
        Err(r) => refused(out, 0, r),
        Ok(record) => {
            let h = record.head.header;
            let values = [
                0,
                h.timestamp as usize,
                h.kind as usize,
                h.subtype as usize,
                record.head.wire.0 as usize,
                h.length.0 as usize,
                h.micros as usize,
                record.body,
                record.end,
            ];
            numbers(out, 0, &values)
        }
    }
}

// x: the offset. The two places are 0.
pub(crate) fn read(a: &[u8], x: &[u8], out: &mut [u8]) -> usize {
    let found = header::read_header(a, number(x, 0)).map(|head| Framed {
        head,
        body: 0,
        end: 0,
    });
    put_record(out, found)
}

// x: the offset.
pub(crate) fn frame(a: &[u8], x: &[u8], out: &mut [u8]) -> usize {
    put_record(out, header::frame_record(a, number(x, 0)))
}

// x: the offset.
pub(crate) fn judge(a: &[u8], x: &[u8], out: &mut [u8]) -> usize {
    let found = walk_judge::judge_record(a, number(x, 0)).map(|record| record.frame);
    put_record(out, found)
}

// x: the offset.
pub(crate) fn candidate(a: &[u8], x: &[u8], out: &mut [u8]) -> usize {
    match walk_candidate::candidate_at(a, number(x, 0)) {
        None => 0,
        Some(standing) => {
            let values = [u8::from(standing.evidence) as usize, standing.end];
            numbers(out, 0, &values)
        }
    }
}

// a: the body. x: type, subtype, stored length.
pub(crate) fn body(a: &[u8], x: &[u8], out: &mut [u8]) -> usize {
    let stored = StoredLength(octets::be32(x, 20));
    match walk_judge::check_body(a, octets::be16(x, 6), octets::be16(x, 14), stored) {
        Ok(()) => 0,
        Err(r) => refused(out, 0, r),
    }
}

// a: the output before. x: timestamp, type, subtype, stored length, microseconds.
pub(crate) fn write(a: &[u8], x: &[u8], out: &mut [u8]) -> usize {
    let h = CommonHeader {
        timestamp: octets::be32(x, 4),
        kind: octets::be16(x, 14),
        subtype: octets::be16(x, 22),
        length: StoredLength(octets::be32(x, 28)),
        micros: octets::be32(x, 36),
    };
    let n = lend(out, a);
    let w = header::write_header(&mut out[..n], h);
    put_written(out, n, w)
}

// What a writer answers, after the output that it was lent.
pub(crate) fn put_written(out: &mut [u8], at: usize, w: Result<usize, Refusal>) -> usize {
    match w {
        Ok(n) => numbers(out, at, &[0, n]),
        Err(r) => refused(out, at, r),
    }
}
