// Lists every stream that an argument names: NAME.mrt, held to the oracle's NAME.listing.
#![tactic(auto)]

ghost use Rattle.std.specs.Prelude.{◌≤◌, length};

use std::env::{Env, FillError};
use std::fs;
use std::fs::Files;
use std::io::Read;

// One octet more than can be listed, so that a longer stream is seen.
const STREAM: usize = 65537;
// One octet more than any listing has, so that a longer file is seen.
const TEXT: usize = 1649590;

#[derive(Drop)]
struct Rooms<'a> {
    stream: &'a mut [u8; STREAM],
    text: &'a mut [u8; TEXT],
    expected: &'a mut [u8; TEXT],
}

fn main(rt: HostRuntime) {
    let mut stream = [0u8; STREAM];
    let mut text = [0u8; TEXT];
    let mut expected = [0u8; TEXT];
    let mut rooms = Rooms {
        stream: &mut stream,
        text: &mut text,
        expected: &mut expected,
    };
    replay_named(&rt, &mut rooms);
}

// The first word of a command line is the program's own name. A write that fails shows nowhere.
fn replay_named<R: Env + Files + Print>(rt: &R, rooms: &mut Rooms) {
    let words = arg_count(rt);
    if words == 0 {
        return;
    }
    let wrong = replay_all(rt, words, rooms);
    let streams = words - 1;
    let _ = println!(rt; "{streams} streams, {wrong} listed otherwise");
}

// How many of the named streams are listed otherwise.
fn replay_all<R: Env + Files + Print>(rt: &R, words: usize, rooms: &mut Rooms) -> usize {
    (1..words).filter(|i| !replay(rt, *i, rooms)).count()
}

// Whether the stream of argument i is listed as it should be. The name of one that is not is written.
fn replay<R: Env + Files + Print>(rt: &R, i: usize, rooms: &mut Rooms) -> bool {
    let mut path = [0u8; 4096];
    let length = arg(rt, i, &mut path);
    let name = &path[..length];
    if agrees(rt, name, rooms) {
        return true;
    }
    let _ = rt.write_all(name);
    let _ = rt.write_all(b" is listed otherwise\n");
    false
}

fn agrees<R: Files>(rt: &R, name: &[u8], rooms: &mut Rooms) -> bool {
    let stream = &mut *rooms.stream;
    let text = &mut *rooms.text;
    let expected = &mut *rooms.expected;
    let Some(mut dump) = open(rt, name, b".mrt") else {
        return false;
    };
    let n = read_full(&mut dump, stream);
    let Some(mut listing) = open(rt, name, b".listing") else {
        return false;
    };
    let k = read_full(&mut listing, expected);
    let m = listing_lines::list(&stream[..n], text);
    m <= text.len() && &text[..m] == &expected[..k]
}

// The file whose name has this ending, where it can be opened.
fn open<R: Files>(rt: &R, name: &[u8], ending: &[u8]) -> Option<R::File> {
    let mut path = [0u8; 4096];
    let end = name.len().checked_add(ending.len())?;
    octets_copies::put_octets(&mut path, 0, name);
    octets_copies::put_octets(&mut path, name.len(), ending);
    let path = str::from_utf8(path.get(..end)?).ok()?;
    fs::open(rt, path).ok()
}

// Reads until the room is full, the input ends or a read fails, and answers how many octets stand in the room then. A reader says how many
// it gave, so there is no index to count. Each program has it: what crates share owes an equation, and none says what a file gives.
fn read_full<R: Read>(from: &mut R, room: &mut [u8]) -> usize
    ensures { result ≤ length room.new }
{
    let mut n = 0;
    while n < room.len() {
        match from.read(&mut room[n..]) {
            Ok(0) | Err(_) => return n,
            Ok(more) => n += more,
        }
    }
    n
}

// How many words the command line has: the list of arguments ends at the first that is missing. Both programs have it and the next, as
// `read_full`.
fn arg_count<R: Env>(rt: &R) -> usize {
    let mut none = [];
    for i in 0..usize::MAX {
        if let Err(FillError::NotPresent) = rt.arg(i, &mut none) {
            return i;
        }
    }
    usize::MAX
}

// Argument i at the front of the room: how many octets it has there, 0 where it is missing or longer.
fn arg<R: Env>(rt: &R, i: usize, room: &mut [u8]) -> usize
    ensures { result ≤ length room.new }
{
    rt.arg(i, room).unwrap_or(0)
}
