// Missing rows.
use crate::put::{number, numbers};
use walk_missing::{Counters, Missing};

// x: of type 13 a mark and the last number, those of type 12, and a record's type and subtype. The answer has the counters after it
// and then what is told of it, 1 and two numbers, or three times 0.
pub(crate) fn count(a: &[u8], x: &[u8], out: &mut [u8]) -> usize {
    let before = Counters {
        tabled: number(x, 0) == 1,
        table: octets::be32(x, 12),
        dumped: number(x, 2) == 1,
        dump: octets::be16(x, 30),
    };
    let r = walk_missing::count(before, octets::be16(x, 38), octets::be16(x, 46), a);
    let c = r.counters;
    let counters = [
        usize::from(c.tabled),
        c.table as usize,
        usize::from(c.dumped),
        c.dump as usize,
    ];
    let p = numbers(out, 0, &counters);
    numbers(out, p, &told(r.missing))
}

fn told(missing: Missing) -> [usize; 3] {
    match missing {
        Missing::Nothing => [0, 0, 0],
        Missing::Repeat => [1, 0, 1],
        Missing::Rows(rows) => [1, rows as usize, 0],
    }
}
