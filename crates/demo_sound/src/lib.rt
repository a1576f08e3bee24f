#![tactic(auto)]

// The demo packs: their sound, four voices that hold a chord, and the rings of keys that it is sealed under.
ghost use Rattle.std.specs.Prelude.{◌≡◌, ◌<◌, ◌≤◌, length};

use pack::{Kind, Rings};
use seal_faults::Sound;
use std::io;

const SAMPLES: usize = 8192;

const MIDDLE: u32 = 16000;

// A key file has one ring behind the other.
const RINGS: Rings = Rings {
    of_trivium: [
        *b"demo key 0",
        *b"demo key 1",
        *b"demo key 2",
        *b"demo key 3",
    ],
    of_enocoro: [
        *b"rack demo key 00",
        *b"rack demo key 01",
        *b"rack demo key 02",
        *b"rack demo key 03",
    ],
    of_triad: [
        *b"deal demo key 00",
        *b"deal demo key 01",
        *b"deal demo key 02",
        *b"deal demo key 03",
    ],
};

// Room for the longest pack.
const ROOM: usize = 32893;

// A wave that goes up and down once in a period: its height, at most half the period.
fn height(phase: u32, period: u32) -> u32
    requires { phase < period }
{
    if phase < period / 2 {
        phase
    } else {
        period - phase
    }
}

// The four voices together. Each is at most about 8,000 high, so that the sum swings round 16,000.
fn chord(i: u32) -> u32
    ensures { result ≤ 32040 }
{
    let low = height(i % 200, 200) % 101 * 80;
    let third = height(i % 160, 160) % 81 * 100;
    let fifth = height(i % 133, 133) % 68 * 120;
    let high = height(i % 100, 100) % 51 * 160;
    low + third + fifth + high
}

// It grows louder in eight steps over the first 2,048 samples.
fn faded_in(wave: u32, i: u32) -> u32
    ensures { result ≤ wave }
{
    if i < 2048 {
        wave >> (7 - i / 256)
    } else {
        wave
    }
}

// The wave with its middle at 0.
fn sample(i: u32) -> i16 {
    faded_in(chord(i), i) as i16 - faded_in(MIDDLE, i) as i16
}

// The whole sound.
pub fn choir() -> [i16; 8192]
    ensures { 8192 ≡ length result }
{
    let mut sound = [0; SAMPLES];
    for (i, place) in sound.iter_mut().enumerate() {
        *place = sample(i as u32);
    }
    sound
}

// Seals the sound and writes the pack to standard output.
pub fn write_pack(
    rt: &impl Print,
    kind: Kind,
    name: &[u8],
    key: u8,
    value: &[u8],
) -> io::Result<()> {
    let samples = choir();
    let sound = Sound {
        name,
        key,
        value,
        samples: &samples,
        loops: &[2048, 8192],
    };
    let mut file = [0; ROOM];
    let sealed = sealer::seal(kind, sound, RINGS, &mut file);
    rt.write_all(octets::slice(&file, 0, sealed.unwrap_or(0)))
}
