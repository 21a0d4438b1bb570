// Numbers into an answer, and out of a question, eight octets each. A store answers where the next one goes; what has no
// room is dropped.
ghost use Rattle.std.specs.Prelude.{◌≤◌, length};

use answer::Refusal;

fn put(out: &mut [u8], at: usize, v: usize) -> usize {
    octets::put(out, at, v.to_be_bytes());
    at.saturating_add(8)
}

pub(crate) fn numbers(out: &mut [u8], at: usize, values: &[usize]) -> usize {
    let mut p = at;
    for v in values {
        p = put(out, p, *v);
    }
    p
}

pub(crate) fn refused(out: &mut [u8], at: usize, why: Refusal) -> usize {
    put(out, at, u8::from(why) as usize)
}

pub(crate) fn sixteen(out: &mut [u8], at: usize, v: &[u8; 16]) -> usize {
    octets_copies::put_octets(out, at, v);
    at.saturating_add(16)
}

// Lent memory before a call, at the front of the answer: how many octets it has.
pub(crate) fn lend(out: &mut [u8], s: &[u8]) -> usize
    ensures { result ≤ length out.new }
{
    octets_copies::put_octets(out, 0, s);
    s.len().min(out.len())
}

// The first N octets, each 0 that is not there.
pub(crate) fn front<const N: usize>(s: &[u8]) -> [u8; N] {
    let mut octets = [0u8; N];
    octets_copies::put_octets(&mut octets, 0, s);
    octets
}

// The number i.
pub(crate) fn number(s: &[u8], i: u8) -> usize {
    usize::from_be_bytes(front(part(s, 8 * i as usize, 8)))
}

// The octets from a place on, as many as there are of so many.
pub(crate) fn part(s: &[u8], start: usize, length: usize) -> &[u8] {
    let rest = &s[start.min(s.len())..];
    &rest[..length.min(rest.len())]
}
