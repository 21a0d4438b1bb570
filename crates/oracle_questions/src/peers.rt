// Peer tables, and one peer at a time.
use crate::put::{front, lend, number, numbers, refused, sixteen};
use answer::Refusal;
use peers_entry::{Peer, PeerRead};
use peers_table::TableHead;

fn put_read(out: &mut [u8], at: usize, found: Result<PeerRead, Refusal>) -> usize {
    match found {
        Err(r) => {
            let p = refused(out, at, r);
            numbers(out, p, &[0; 6])
        }
        Ok(read) => {
            let p = read.peer;
            let values = [0, p.kind as usize, p.id as usize, p.asn as usize, read.next];
            let q = numbers(out, at, &values);
            sixteen(out, q, &p.addr)
        }
    }
}

// The table's head alone.
pub(crate) fn check(a: &[u8], out: &mut [u8]) -> usize {
    match peers_table::check_peers(a) {
        Err(r) => refused(out, 0, r),
        Ok(t) => {
            let values = [
                0,
                t.collector as usize,
                t.name,
                t.length,
                t.count as usize,
                t.first,
                t.end,
            ];
            numbers(out, 0, &values)
        }
    }
}

// Every peer of a table that passes its check.
pub(crate) fn table(a: &[u8], out: &mut [u8]) -> usize {
    match peers_table::check_peers(a) {
        Err(r) => refused(out, 0, r),
        Ok(t) => put_peers(out, a, t),
    }
}

fn put_peers(out: &mut [u8], a: &[u8], t: TableHead) -> usize {
    let mut p = 0;
    let mut at = t.first;
    for _ in 0..t.count {
        let found = peers_entry::read_peer(a, at);
        p = put_read(out, p, found);
        at = found.map_or(0, |read| read.next);
    }
    p
}

// x: the offset.
pub(crate) fn read(a: &[u8], x: &[u8], out: &mut [u8]) -> usize {
    put_read(out, 0, peers_entry::read_peer(a, number(x, 0)))
}

// a: the output before. b: the address. x: the offset, type, id, AS.
pub(crate) fn write(a: &[u8], b: &[u8], x: &[u8], out: &mut [u8]) -> usize {
    let p = Peer {
        kind: octets::octet(x, 15),
        id: octets::be32(x, 20),
        addr: front(b),
        asn: octets::be32(x, 28),
    };
    let n = lend(out, a);
    let next = peers_entry::put_peer(&mut out[..n], number(x, 0), p);
    numbers(out, n, &[next])
}
