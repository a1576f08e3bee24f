// A file with one bit of it turned over, opened, each bit in turn. For each byte the refusals are printed, the lowest
// bit first, and in the end the output, which all these openings are lent.
use crate::{calls, parts};
use std::io;

const BITS: [u8; 8] = [1, 2, 4, 8, 16, 32, 64, 128];

fn open_turned(file: &[u8], at: usize, bits: u8, output: &mut [i16]) -> u8 {
    let mut other = [0; parts::SMALL_ROOM];
    parts::turn_over(file, at, bits, &mut other);
    let opened = opener::open(
        octets::slice(&other, 0, file.len()),
        rings::rings_of(&parts::own_keys()),
        output,
    );
    match opened {
        Ok(_) => 0,
        Err(flaw) => flaw.refusal as u8,
    }
}

fn flip_byte(rt: &impl Print, file: &[u8], at: usize, output: &mut [i16]) -> io::Result<()> {
    for bit in BITS {
        let refusal = open_turned(file, at, bit, output);
        test_kit::print_number(rt, b" ", refusal as u64)?;
    }
    Ok(())
}

fn flip_all(rt: &impl Print, file: &[u8], output: &mut [i16]) -> io::Result<()> {
    for at in 0..file.len() {
        rt.write_all(b",")?;
        flip_byte(rt, file, at, output)?;
    }
    Ok(())
}

pub fn flip(rt: &impl Print, row: &[u8]) -> io::Result<()> {
    let mut file = [0; parts::SMALL_ROOM];
    let mut output = calls::sound_room();
    flip_all(rt, test_kit::field_bytes(row, 2, &mut file), &mut output)?;
    calls::print_sound(rt, &output)
}
