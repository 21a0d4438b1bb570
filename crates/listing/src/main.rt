// Lists the records and gaps of a dump: standard input in, a line for each to standard output.
#![tactic(auto)]

ghost use Rattle.std.specs.Prelude.{◌≡◌, ◌≤◌, length};
ghost use Rattle.listing_lines.specs.Listing.{room};

use std::io::Read;

// Room for one octet more than can be listed, so that longer input is seen.
fn input_room() -> [u8; 65537]
    ensures { 65537 ≡ length result }
{
    [0; 65537]
}

// Room for every listing.
fn text_room() -> [u8; 1649589]
    ensures { room ≡ length result }
{
    [0; 1649589]
}

// A read or a write that fails is the end of the input or of the output, and shows nowhere else.
fn main(rt: HostRuntime) {
    let mut input = input_room();
    let n = read_full(&mut rt.stdin(), &mut input);
    let mut text = text_room();
    let m = listing_lines::list(&input[..n], &mut text);
    let _ = rt.write_all(&text[..m]);
}

// Reads until the room is full, the input ends or a read fails, and answers how many octets stand in the room then. A reader says how many
// it gave, so there is no index to count. Each program has it: what crates share owes an equation, and none says what a file gives.
fn read_full<R: Read>(from: &mut R, room: &mut [u8]) -> usize
    ensures { result ≤ length room.new }
{
    let mut n = 0;
    while n < room.len() {
        match from.read(&mut room[n..]) {
            Ok(0) | Err(_) => return n,
            Ok(more) => n += more,
        }
    }
    n
}
