// Single calls: small files opened as frames of floats. Printed are the answer's fields in their order and four floats
// as their bits, the most significant byte first. The call was lent the first ROOM of them; those that it did not write
// are as they were. The bytes of KEYS stand in the place of the first of the program's own keys.
ghost use Rattle.std.specs.Prelude.{◌≡◌, length};

use crate::parts;
use std::io;

// What each float is before a call: over 1, as no sample is.
const UNTOUCHED: f32 = 2.5;

const ROOM: usize = 4;

fn room() -> [f32; 4]
    ensures { 4 ≡ length result }
{
    [UNTOUCHED; ROOM]
}

// A float's bits. What is not equal to itself is no number, and can't be asked for them: it gets some that no number
// has.
fn pattern(x: f32) -> u32 {
    if x == x { f32::to_bits(x) } else { 0xffffffff }
}

fn print_floats(rt: &impl Print, output: &[f32; 4]) -> io::Result<()> {
    for x in output {
        let bits = pattern(*x);
        print!(rt; " {bits:08x}")?;
    }
    Ok(())
}

pub fn frames(rt: &impl Print, row: &[u8]) -> io::Result<()> {
    let lent = ROOM.min(test_kit::field_number(row, 3) as usize);
    let mut file = [0; parts::SMALL_ROOM];
    let mut output = room();
    let mut keys = parts::own_keys();
    test_kit::field_bytes(row, 4, &mut keys);
    let opened = stereo_opener::open(
        test_kit::field_bytes(row, 2, &mut file),
        rings::rings_of(&keys),
        &mut output[0..lent],
    );
    parts::print_opened(rt, b"", opened)?;
    rt.write_all(b",")?;
    print_floats(rt, &output)?;
    rt.write_all(b"\n")
}
