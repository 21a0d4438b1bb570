// TABLE_DUMP bodies, read and written.
use crate::headers::put_written;
use crate::put::{front, lend, numbers, part, refused, sixteen};
use dump_layout::Dump;

// x: the subtype.
pub(crate) fn read(a: &[u8], x: &[u8], out: &mut [u8]) -> usize {
    match dump_read::read_dump(a, octets::be16(x, 6)) {
        Err(r) => {
            let p = refused(out, 0, r);
            numbers(out, p, &[0; 12])
        }
        Ok(found) => {
            let d = found.dump;
            let values = [
                0,
                d.view as usize,
                d.sequence as usize,
                d.bits as usize,
                d.status as usize,
                d.originated as usize,
                d.asn as usize,
                found.start,
                found.end,
            ];
            let p = numbers(out, 0, &values);
            let q = sixteen(out, p, &d.prefix);
            sixteen(out, q, &d.peer)
        }
    }
}

// a: the output before. b: the prefix, the peer's address, the attributes. x: subtype, view, sequence, prefix bits, status,
// originated time, AS.
pub(crate) fn write(a: &[u8], b: &[u8], x: &[u8], out: &mut [u8]) -> usize {
    let d = Dump {
        view: octets::be16(x, 14),
        sequence: octets::be16(x, 22),
        prefix: front(b),
        bits: octets::octet(x, 31),
        status: octets::octet(x, 39),
        originated: octets::be32(x, 44),
        peer: front(part(b, 16, 16)),
        asn: octets::be32(x, 52),
    };
    let n = lend(out, a);
    let subtype = octets::be16(x, 6);
    let w = dump_write::write_dump(&mut out[..n], subtype, d, part(b, 32, b.len()));
    put_written(out, n, w)
}
