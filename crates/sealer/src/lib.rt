#![tactic(auto)]

// Sealing a sound: the sections of its pack, written one behind the other where nothing is wrong.
ghost use Rattle.std.specs.Prelude.{[], ◌∷◌, ◌++◌, ◌≡◌, suc, ◌+◌, ◌*◌, ◌/◌, ◌≤◌, length};
ghost use Rattle.octets.specs.Buffers.{put};
ghost use Rattle.octets.specs.Rows.{row};
ghost use Rattle.triad.specs.Tag.{triad};
ghost use Rattle.pack.specs.Calls.{sealing_file};
ghost use Rattle.pack.specs.Answers.{sealed_of};
ghost use Rattle.pack.specs.Ciphers.{cipher_of};
ghost use Rattle.pack.specs.Layout.{fours, key_named, name_section, tag_length};
ghost use Rattle.seal_faults.specs.Sounds.{sound_parts};
ghost use Rattle.sealer.specs.Tags.{tag_row};
ghost use Rattle.refusals.specs.Outcome.{outcome};

use pack::{Kind, Rings};
use refusals::Refusal;
use seal_faults::Sound;

// All that stands before the enciphered samples: the name, the key and the sample count, each behind the other.
fn write_front(output: &mut [u8], sound: Sound)
    requires { (length sound.name.now ≤ 32) × (length sound.value.now ≤ 21)
        × (7 + length sound.name.now + length sound.value.now ≤ length output.old) }
    ensures { output.new ≡ put output.old 0
        (name_section (sound_parts sound.entry)
        ++ ((suc (length sound.entry.value.now) ∷ sound.entry.key ∷ sound.entry.value.now)
        ++ row (fours 1) (length sound.entry.samples.now ∷ []))) }
{
    let key_at = 1 + sound.name.len();
    let sample_at = key_at + 2 + sound.value.len();
    output[0] = sound.name.len() as u8;
    octet_writer::copy(output, 1, sound.name);
    output[key_at] = sound.value.len() as u8 + 1;
    output[key_at + 1] = sound.key;
    octet_writer::copy(output, key_at + 2, sound.value);
    octet_writer::write_number(output, sample_at, 4, sound.samples.len() as u64);
}

// The loop section of an even run, at its place.
fn write_loops(output: &mut [u8], at: usize, loops: &[u32])
    requires { (length loops.now ≤ 16) × (at + 1 + 4 * length loops.now ≤ length output.old) }
    ensures { output.new ≡ put output.old at
        (length loops.now / 2 ∷ row (fours (length loops.now)) loops.now) }
{
    output[at] = (loops.len() / 2) as u8;
    for (i, place) in loops.iter().enumerate() {
        octet_writer::write_number(output, at + 1 + 4 * i, 4, u64::from(*place));
    }
}

// The tag section of a file that is written up to it, if its cipher has one: by what stands in the output before the body,
// in the loop section, and in the body, which is enciphered and stands from `start` to `stop`.
fn write_tag(
    kind: Kind,
    sound: Sound,
    ring: [[u8; 16]; 4],
    output: &mut [u8],
    start: usize,
    stop: usize,
    at: usize,
)
    requires { (sound.key ≤ 3) × (length sound.value.now ≡ (cipher_of kind).value_bytes) × (start ≤ stop) × (stop ≤ at)
        × (at + tag_length (cipher_of kind) ≤ length output.old) }
    ensures { output.new ≡ put output.old at
        (tag_row (cipher_of kind) (key_named ring sound.entry.key) sound.entry.value.now
        output.old start stop at) }
{
    match kind {
        Kind::Trivium | Kind::Enocoro => {}
        Kind::Triad => {
            let written = &output[..];
            let due = triad_tags::tag_due(
                &ring[sound.key as usize],
                sound.value,
                &written[..start],
                &written[stop..at],
                &written[start..stop],
            );
            output[at] = 8;
            octet_writer::write_number(output, at + 1, 8, due);
        }
    }
}

// Seals a sound under a cipher: writes the pack file to the front of the output, and answers its length.
pub fn seal(kind: Kind, sound: Sound, rings: Rings, output: &mut [u8]) -> Result<usize, Refusal>
    ensures { outcome (sealed_of result) output.new ≡ sealing_file kind rings
        (sound_parts sound.entry) output.old }
{
    seal_faults::seal_fault(kind, sound, output.len())?;
    let body_at = 7 + sound.name.len() + sound.value.len();
    let loop_at = body_at + 2 * sound.samples.len();
    let tag_at = loop_at + 1 + 4 * sound.loops.len();
    let cipher = bodies::begin(kind, rings, sound.key, sound.value).unwrap();
    write_front(output, sound);
    chunks::write_samples(cipher, sound.samples, output, body_at);
    write_loops(output, loop_at, sound.loops);
    write_tag(
        kind,
        sound,
        rings.of_triad,
        output,
        body_at,
        loop_at,
        tag_at,
    );
    Ok(tag_at + kind.tag_length())
}
