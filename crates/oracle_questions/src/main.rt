// Puts every question of the lists that the arguments name, and holds each answer to the oracle's.
#![tactic(auto)]

mod ask;
mod dumps;
mod headers;
mod missing;
mod peers;
mod put;
mod ribs;
mod text;
mod walks;

ghost use Rattle.std.specs.Prelude.{◌≤◌, length};

use std::env::{Env, FillError};
use std::fs;
use std::fs::Files;
use std::io::Read;

// Rooms for a list, a question and an answer. Questions of 65,535 RIB entries, and their answers, are the longest.
const LIST: usize = 524288;

const QUESTION: usize = 1179648;

const ANSWER: usize = 589824;

#[derive(Drop)]
struct Rooms<'a> {
    list: &'a mut [u8; LIST],
    rec: &'a mut [u8; QUESTION],
    out: &'a mut [u8; ANSWER],
}

fn main(rt: HostRuntime) {
    let mut list = [0u8; LIST];
    let mut rec = [0u8; QUESTION];
    let mut out = [0u8; ANSWER];
    let mut rooms = Rooms {
        list: &mut list,
        rec: &mut rec,
        out: &mut out,
    };
    replay_lists(&rt, arg_count(&rt), &mut rooms);
}

// The first word of a command line is the program's own name.
fn replay_lists<R: Env + Files + Print>(rt: &R, words: usize, rooms: &mut Rooms) {
    for i in 1..words {
        replay_list(rt, i, rooms);
    }
}

// A write that fails shows nowhere.
fn replay_list<R: Env + Files + Print>(rt: &R, i: usize, rooms: &mut Rooms) {
    let list = &mut *rooms.list;
    let rec = &mut *rooms.rec;
    let out = &mut *rooms.out;
    let n = read_list(rt, i, list);
    let lines = ask_lines(rt, &list[..n], rec, out);
    let _ = println!(rt; " {lines}");
}

// Writes the name of the list of argument i, and reads it. One that is not there has no line, and one that is longer than
// its room loses what has none: its last line, if not its count, is then wrong.
fn read_list<R: Env + Files + Print>(rt: &R, i: usize, list: &mut [u8]) -> usize
    ensures { result ≤ length list.new }
{
    let mut path = [0u8; 4096];
    let length = arg(rt, i, &mut path);
    let name = &path[..length];
    let _ = rt.write_all(name);
    match open(rt, name) {
        Some(mut file) => read_full(&mut file, list),
        None => 0,
    }
}

// The file of this name, where it can be opened.
fn open<R: Files>(rt: &R, name: &[u8]) -> Option<R::File> {
    let path = str::from_utf8(name).ok()?;
    fs::open(rt, path).ok()
}

// Reads until the room is full, the input ends or a read fails, and answers how many octets stand in the room then. A reader says how many
// it gave, so there is no index to count. Each program has it: what crates share owes an equation, and none says what a file gives.
fn read_full<R: Read>(from: &mut R, room: &mut [u8]) -> usize
    ensures { result ≤ length room.new }
{
    let mut n = 0;
    while n < room.len() {
        match from.read(&mut room[n..]) {
            Ok(0) | Err(_) => return n,
            Ok(more) => n += more,
        }
    }
    n
}

// How many words the command line has: the list of arguments ends at the first that is missing. Both programs have it and the next, as
// `read_full`.
fn arg_count<R: Env>(rt: &R) -> usize {
    let mut none = [];
    for i in 0..usize::MAX {
        if let Err(FillError::NotPresent) = rt.arg(i, &mut none) {
            return i;
        }
    }
    usize::MAX
}

// Argument i at the front of the room: how many octets it has there, 0 where it is missing or longer.
fn arg<R: Env>(rt: &R, i: usize, room: &mut [u8]) -> usize
    ensures { result ≤ length room.new }
{
    rt.arg(i, room).unwrap_or(0)
}

// Each line of a list: those that are answered otherwise are named, and the answer is how many lines there are.
fn ask_lines<P: Print>(rt: &P, list: &[u8], rec: &mut [u8], out: &mut [u8]) -> usize {
    let mut lines: usize = 0;
    for line in list.split_inclusive(|c| *c == b'\n') {
        lines = lines.saturating_add(1);
        if !ask::ask_line(line, rec, out) {
            let _ = print!(rt; " line {lines} differs,");
        }
    }
    lines
}
