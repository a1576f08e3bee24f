#![tactic(auto)]

// Packs, a row for each case, by the row's first word:
//
//     open LABEL FILE ROOM KEYS
//     frames LABEL FILE ROOM KEYS
//     seal LABEL SAMPLES NAME KEY VALUE LOOPS ROOM CIPHER
//     flip LABEL FILE
//     trip SEED COUNT NAME KEY VALUE LOOPS FILE_ROOM SOUND_ROOM CIPHER
//     lowest SEED COUNT NAME KEY VALUE LOOPS FILE_ROOM PLACE CIPHER
//
// with two bytes for each sample and four for each number of a loop. The last word may be left out: then the keys are
// our own, and the cipher is Trivium. Three programs read such rows, one those of packs with a tag and one those of
// packs opened as frames: there are more rows than one program reads.
mod calls;
mod flips;
mod floats;
mod parts;
mod trips;

use std::io;

fn run_labelled(rt: &impl Print, row: &[u8], word: &[u8]) -> io::Result<()> {
    rt.write_all(test_kit::field(row, 1))?;
    match word {
        b"open" => calls::open(rt, row),
        b"frames" => floats::frames(rt, row),
        b"flip" => flips::flip(rt, row),
        _ => calls::seal(rt, row),
    }
}

fn run(rt: &impl Print, row: &[u8]) -> io::Result<()> {
    let word = test_kit::field(row, 0);
    match word {
        b"trip" => trips::trip(rt, row),
        b"lowest" => trips::lowest(rt, row),
        _ => run_labelled(rt, row, word),
    }
}

// The whole of a program: the rows on its standard input.
pub fn run_all(rt: &HostRuntime) -> io::Result<()> {
    let mut room = [0; test_kit::ROOM];
    let rows = test_kit::rows(rt, &mut room)?;
    test_kit::run_rows(rt, rows, (), |rt, (), row| run(rt, row))
}
