// Single calls: small files and parts, each wrong in one way or in two, and what opening and sealing answer. Printed
// are the answer's fields in their order and the whole output, of which the call was lent the first ROOM elements, or
// that no element of it was written. The bytes of KEYS stand in the place of the first of the program's own keys.
ghost use Rattle.std.specs.Prelude.{◌≡◌, length};

use crate::parts;
use pack::Kind;
use std::io;

const FILE_ROOM: usize = 58;

const SOUND_ROOM: usize = 4;

fn file_room() -> [u8; 58]
    ensures { 58 ≡ length result }
{
    [test_kit::UNTOUCHED; FILE_ROOM]
}

pub fn sound_room() -> [i16; 4]
    ensures { 4 ≡ length result }
{
    [samples::word(test_kit::UNTOUCHED, test_kit::UNTOUCHED); SOUND_ROOM]
}

fn print_output(rt: &impl Print, output: &[u8]) -> io::Result<()> {
    rt.write_all(b", ")?;
    parts::print_output(rt, output)?;
    rt.write_all(b"\n")
}

// An array's length is known where it is lent as an array, also after a part of it was lent.
pub fn print_sound(rt: &impl Print, output: &[i16; 4]) -> io::Result<()> {
    let mut bytes = file_room();
    sample_runs::write_words(output, &mut bytes);
    print_output(rt, octets::slice(&bytes, 0, 2 * SOUND_ROOM))
}

// How many bytes of a small file are printed: of one with a tag more than of others.
fn shown(kind: Kind) -> usize {
    if kind.tag_length() == 0 {
        return 40;
    }
    FILE_ROOM
}

pub fn open(rt: &impl Print, row: &[u8]) -> io::Result<()> {
    let lent = SOUND_ROOM.min(test_kit::field_number(row, 3) as usize);
    let mut file = [0; parts::SMALL_ROOM];
    let mut output = sound_room();
    let mut keys = parts::own_keys();
    test_kit::field_bytes(row, 4, &mut keys);
    let opened = opener::open(
        test_kit::field_bytes(row, 2, &mut file),
        rings::rings_of(&keys),
        &mut output[0..lent],
    );
    parts::print_opened(rt, b"", opened)?;
    print_sound(rt, &output)
}

pub fn seal(rt: &impl Print, row: &[u8]) -> io::Result<()> {
    let mut body = [0; parts::LARGE_ROOM];
    let mut file = file_room();
    let kind = parts::kind_at(row, 8);
    let sealed = parts::seal_row(
        row,
        kind,
        test_kit::field_bytes(row, 2, &mut body),
        &mut file,
    );
    parts::print_sealed(rt, b" ", sealed)?;
    print_output(rt, octets::slice(&file, 0, shown(kind)))
}
