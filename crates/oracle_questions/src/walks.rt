// The walk: one call, and all of them.
use crate::put::{number, numbers};
use walk::Walk;
use walk_step::WalkAnswer;

// A number for the kind of answer, two places, and three small numbers.
fn row(answer: WalkAnswer) -> [usize; 6] {
    match answer {
        WalkAnswer::Record(record) => {
            let header = record.frame.head.header;
            let kind = header.kind as usize;
            [
                1,
                record.start,
                record.frame.end,
                kind,
                header.subtype as usize,
                0,
            ]
        }
        WalkAnswer::Gap {
            start,
            end,
            refusal,
            evidence,
            confirmed,
        } => {
            let why = u8::from(refusal) as usize;
            [
                2,
                start,
                end,
                why,
                u8::from(evidence) as usize,
                confirmed as usize,
            ]
        }
        WalkAnswer::End(position) => [3, position, 0, 0, 0, 0],
        WalkAnswer::Window {
            start,
            window,
            refusal,
        } => [4, start, window, u8::from(refusal) as usize, 0, 0],
        WalkAnswer::Refused(r) => [5, 0, 0, u8::from(r) as usize, 0, 0],
    }
}

// x: position, finished mark, window, asked number.
pub(crate) fn step(a: &[u8], x: &[u8], out: &mut [u8]) -> usize {
    let w = Walk {
        position: number(x, 0),
        finished: octets::octet(x, 15) != 0,
    };
    let turn = walk_step::step(a, w, number(x, 2), octets::octet(x, 31));
    let after = turn.walk;
    let p = numbers(out, 0, &row(turn.answer));
    numbers(out, p, &[after.position, usize::from(after.finished)])
}

// x: window, asked number. A walk goes on after a record and after a gap.
pub(crate) fn whole(a: &[u8], x: &[u8], out: &mut [u8]) -> usize {
    let window = number(x, 0);
    let asked = octets::octet(x, 15);
    let mut w = walk::fresh();
    let mut p = 0;
    for _ in 0..2 * (a.len() / 12) + 2 {
        let turn = walk_step::step(a, w, window, asked);
        p = numbers(out, p, &row(turn.answer));
        if !matches!(turn.answer, WalkAnswer::Record(_) | WalkAnswer::Gap { .. }) {
            return p;
        }
        w = turn.walk;
    }
    p
}
