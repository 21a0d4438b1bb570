// Lines of a list, sign by sign: two hexadecimal digits are an octet; `g` to `v` are 1 to 16 octets of 0; `*`, an octet d and
// three octets m are m octets more, each as the one d places before it; a space and a line's end are nothing.
ghost use Rattle.std.specs.Prelude.{◌≤◌, ◌<◌, IfSome};

// The octets of a line from its second sign on, at the front of the room: how many they are, where the line can be read and has room.
pub(crate) fn decode(line: &[u8], rec: &mut [u8]) -> Option<usize> {
    let mut left = line.get(1..)?;
    let mut len = 0;
    while !left.is_empty() {
        (left, len) = match left {
            [b' ' | b'\n', rest @ ..] => (rest, len),
            [sign @ b'g'..=b'v', rest @ ..] => {
                let one = store(rec, len, 0)?;
                (rest, repeat(rec, one, 1, (*sign - b'g') as usize)?)
            }
            [b'*', rest @ ..] => {
                let (digits, rest) = rest.split_at(rest.len().min(8));
                let more = (number(digits, 2) * 256 + number(digits, 4)) * 256 + number(digits, 6);
                (rest, repeat(rec, len, number(digits, 0), more)?)
            }
            [high, low, rest @ ..] => (rest, store(rec, len, hex(*high, *low)?)?),
            _ => return None,
        };
    }
    Some(len)
}

fn store(rec: &mut [u8], len: usize, v: u8) -> Option<usize> {
    if rec.len() <= len {
        return None;
    }
    rec[len] = v;
    Some(len + 1)
}

fn repeat(rec: &mut [u8], len: usize, distance: usize, more: usize) -> Option<usize> {
    let room = rec.len().checked_sub(len)?;
    if room < more || distance == 0 || len < distance {
        return None;
    }
    let end = len + more;
    for i in len..end {
        rec[i] = rec[i - distance];
    }
    Some(end)
}

// The octet of digits i and the next as a number, or 256.
fn number(line: &[u8], i: u8) -> usize
    ensures { result ≤ 256 }
{
    let at = i as usize;
    hex(octets::octet(line, at), octets::octet(line, at + 1)).map_or(256, usize::from)
}

// The octet of two digits.
fn hex(high: u8, low: u8) -> Option<u8> {
    Some(digit(high)? * 16 + digit(low)?)
}

// A digit's value.
fn digit(c: u8) -> Option<u8>
    ensures { IfSome result (λ d. d < 16) }
{
    match c {
        b'0'..=b'9' => Some(c - b'0'),
        b'a'..=b'f' => Some(c - b'a' + 10),
        _ => None,
    }
}
