#![tactic(auto)]

// Reads all keys and then a pack from standard input, and prints the text about them.
use std::io;

// The keys and more than the longest pack. A longer input is refused by what stands in its front, so what is not read
// changes nothing.
const MOST_BYTES: usize = 65536;

// More than the longest text.
const ROOM: usize = 4096;

fn main(rt: HostRuntime) -> io::Result<()> {
    let mut input = [0; MOST_BYTES];
    let got = whole_input::read_full(&rt, &mut input)?;
    let mut text = [0; ROOM];
    let length = pack_text::describe(&input[..got], &mut text);
    rt.write_all(octets::slice(&text, 0, length))
}
