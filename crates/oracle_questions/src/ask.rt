// One question: its octets, the call, and whether the answer is the expected one.
use crate::put::part;
use crate::text::decode;
use crate::{dumps, headers, missing, peers, ribs, walks};

// Whether a line's question is answered as it should be. Its first sign says who answered it, `C` or `R`.
pub(crate) fn ask_line(line: &[u8], rec: &mut [u8], out: &mut [u8]) -> bool {
    let Some(n) = decode(line, rec) else {
        return false;
    };
    ask(part(rec, 0, n), out)
}

// The call 1, the lengths of two runs of octets 4 each, the length of the numbers 1; these three; the expected answer.
fn ask(rec: &[u8], out: &mut [u8]) -> bool {
    let first = octets::be32(rec, 1) as usize;
    let second = octets::be32(rec, 5) as usize;
    let third = octets::octet(rec, 9) as usize;
    let a = part(rec, 10, first);
    let b = part(rec, 10 + first, second);
    let x = part(rec, 10 + first + second, third);
    let Some(m) = answer(octets::octet(rec, 0), a, b, x, out) else {
        return false;
    };
    let expected = part(rec, 10 + first + second + third, rec.len());
    m <= out.len() && expected == part(out, 0, m)
}

// How long the answer of a call is, where there is a call of that number. The number comes from the list.
fn answer(call: u8, a: &[u8], b: &[u8], x: &[u8], out: &mut [u8]) -> Option<usize> {
    let m = match call {
        1 => headers::read(a, x, out),
        2 => headers::frame(a, x, out),
        3 => headers::write(a, x, out),
        4 => headers::judge(a, x, out),
        5 => headers::candidate(a, x, out),
        6 => headers::body(a, x, out),
        7 => peers::check(a, out),
        8 => peers::table(a, out),
        9 => peers::read(a, x, out),
        10 => peers::write(a, b, x, out),
        11 => ribs::read(a, x, out),
        12 => ribs::entry(a, x, out),
        13 => ribs::entries(a, x, out),
        14 => ribs::age(x, out),
        15 => ribs::begin(a, b, x, out),
        16 => ribs::add(a, b, x, out),
        17 => ribs::push(a, b, x, out),
        18 => walks::step(a, x, out),
        19 => walks::whole(a, x, out),
        20 => dumps::read(a, x, out),
        21 => dumps::write(a, b, x, out),
        22 => missing::count(a, x, out),
        _ => return None,
    };
    Some(m)
}
