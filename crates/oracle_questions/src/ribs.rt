// RIB bodies, read and written.
use crate::headers::put_written;
use crate::put::{front, lend, number, numbers, part, refused, sixteen};
use answer::Refusal;
use rib_entries::{Cursor, Entry};
use rib_write::{Builder, NewEntry};

// x: the subtype.
pub(crate) fn read(a: &[u8], x: &[u8], out: &mut [u8]) -> usize {
    match rib_read::read_rib(a, octets::be16(x, 6)) {
        Err(r) => {
            let p = refused(out, 0, r);
            numbers(out, p, &[0; 7])
        }
        Ok(rib) => {
            let values = [
                0,
                rib.sequence as usize,
                rib.bits as usize,
                rib.declared as usize,
                rib.count as usize,
                rib.entries,
            ];
            let p = numbers(out, 0, &values);
            sixteen(out, p, &rib.prefix)
        }
    }
}

fn put_entry(out: &mut [u8], at: usize, e: Entry) -> usize {
    let values = [
        0,
        e.peer as usize,
        e.originated as usize,
        e.path as usize,
        e.start,
        e.end,
    ];
    numbers(out, at, &values)
}

// x: the subtype, and the entry's number.
pub(crate) fn entry(a: &[u8], x: &[u8], out: &mut [u8]) -> usize {
    match rib_entries::entry_at(a, octets::be16(x, 6), number(x, 1)) {
        Ok(e) => put_entry(out, 0, e),
        Err(r) => refused(out, 0, r),
    }
}

// All entries, one after the other. x: the subtype.
pub(crate) fn entries(a: &[u8], x: &[u8], out: &mut [u8]) -> usize {
    let subtype = octets::be16(x, 6);
    match rib_entries::first_entry(a, subtype) {
        Ok(c) => hand_out(a, subtype, c, out),
        Err(r) => refused(out, 0, r),
    }
}

// What a cursor hands out, and 255 at its end.
fn hand_out(a: &[u8], subtype: u16, first: Cursor, out: &mut [u8]) -> usize {
    let mut p = 0;
    let mut cursor = first;
    for _ in 0..first.left as usize + 1 {
        match rib_entries::next_entry(a, subtype, cursor) {
            Err(r) => return refused(out, p, r),
            Ok(None) => return numbers(out, p, &[255]),
            Ok(Some(next)) => {
                p = put_entry(out, p, next.entry);
                cursor = next.cursor;
            }
        }
    }
    p
}

// x: the record's timestamp, the originated time, and two numbers: 1 where the age is the first less the second.
pub(crate) fn age(x: &[u8], out: &mut [u8]) -> usize {
    let expected = i64::from(octets::be32(x, 20)) - i64::from(octets::be32(x, 28));
    let is_so = rib_head::age(octets::be32(x, 4), octets::be32(x, 12)) == expected;
    numbers(out, 0, &[usize::from(is_so)])
}

// a: the output before. b: the prefix. x: subtype, sequence, prefix bits.
pub(crate) fn begin(a: &[u8], b: &[u8], x: &[u8], out: &mut [u8]) -> usize {
    let subtype = octets::be16(x, 6);
    let sequence = octets::be32(x, 12);
    let bits = octets::octet(x, 23);
    let n = lend(out, a);
    let w = rib_begin::begin_rib(&mut out[..n], subtype, sequence, bits, front(b));
    put_written(out, n, w)
}

// x: length, subtype, peer index, originated time, path number.
fn new_entry(x: &[u8]) -> NewEntry {
    NewEntry {
        peer: octets::be16(x, 22),
        originated: octets::be32(x, 28),
        path: octets::be32(x, 36),
    }
}

// a: the output before. b: the attributes. x: as for new_entry.
pub(crate) fn add(a: &[u8], b: &[u8], x: &[u8], out: &mut [u8]) -> usize {
    let n = lend(out, a);
    let w = rib_add::add_entry(
        &mut out[..n],
        number(x, 0),
        octets::be16(x, 14),
        new_entry(x),
        b,
    );
    put_written(out, n, w)
}

// The body is opened once, and the entry pushed twice. a, b and x as for add; the length is within the output.
pub(crate) fn push(a: &[u8], b: &[u8], x: &[u8], out: &mut [u8]) -> usize {
    let n = lend(out, a);
    let body = part(a, 0, number(x, 0));
    match push_twice(&mut out[..n], body, octets::be16(x, 14), new_entry(x), b) {
        Ok(c) => numbers(out, n, &[0, c.len, c.at, c.count as usize]),
        Err(r) => refused(out, n, r),
    }
}

fn push_twice(
    out: &mut [u8],
    body: &[u8],
    subtype: u16,
    e: NewEntry,
    attributes: &[u8],
) -> Result<Builder, Refusal> {
    let first = rib_add::open_rib(body, subtype)?;
    let second = rib_write::push_entry(out, subtype, first, e, attributes)?;
    rib_write::push_entry(out, subtype, second, e, attributes)
}
