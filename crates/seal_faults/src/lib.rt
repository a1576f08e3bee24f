#![tactic(auto)]

// What the parts of a pack have wrong: the rules on them in their order, apart from how they are written.
ghost use Rattle.std.specs.Prelude.{cond, ◌≡◌, ◌+◌, ◌*◌, ◌%◌, ◌≤◌, length};
ghost use Rattle.pack.specs.Ciphers.{cipher_of};
ghost use Rattle.pack.specs.Faults.{part_name_faults, seal_faults};
ghost use Rattle.pack.specs.Layout.{samples_good, loops_good, tag_length};
ghost use Rattle.refusals.specs.Answers.{number_in};
ghost use Rattle.refusals.specs.Rules.{first};
ghost use Rattle.seal_faults.specs.Sounds.{sound_parts, file_length};

use pack::Kind;
use refusals::Refusal;

// A sound that is to be sealed: all parts of its pack that are told. The loops are starts and ends in turn.
#[derive(Clone, Copy)]
pub struct Sound<'a> {
    pub name: &'a [u8],
    pub key: u8,
    pub value: &'a [u8],
    pub samples: &'a [i16],
    pub loops: &'a [u32],
}

// Whether each loop of an even run is in rule.
fn loops_in_rule(loops: &[u32], samples: usize) -> bool
    requires { length loops.now % 2 ≡ 0 }
    ensures { result ≡ loops_good samples loops.now }
{
    let (pairs, _) = loops.as_chunks::<2>();
    pairs
        .iter()
        .all(|pair| pair[0] < pair[1] && pair[1] as usize <= samples)
}

// 1 if there is a sample that has no opposite, and 0 if each has one. All samples are looked at, whatever is found, and
// the number is as wide as they are: so the compiler takes eight at a time.
fn lowest_found(samples: &[i16]) -> u16
    ensures { result ≡ cond (samples_good samples.now) 0 1 }
{
    let mut found = 0;
    for sample in samples {
        if *sample == i16::MIN {
            found = 1;
        }
    }
    found
}

// The length of a sound's file, with a tag section of this length.
fn file_length(sound: Sound, tag: usize) -> usize
    requires { (length sound.name.now ≤ 32) × (length sound.value.now + tag ≤ 21)
        × (length sound.samples.now ≤ 16384) × (length sound.loops.now ≤ 16) }
    ensures { result ≡ file_length sound.entry tag }
{
    8 + sound.name.len() + sound.value.len() + 2 * sound.samples.len() + 4 * sound.loops.len() + tag
}

// What a name has wrong.
pub fn name_fault(name: &[u8]) -> Result<(), Refusal>
    ensures { number_in result ≡ first (part_name_faults name.now) }
{
    if pack::MOST_NAME < name.len() {
        return Err(Refusal::LongName);
    }
    if !pack::name_good(name) {
        return Err(Refusal::BadName);
    }
    Ok(())
}

// What the parts of a file have wrong, and whether the file has room.
pub fn seal_fault(kind: Kind, sound: Sound, room: usize) -> Result<(), Refusal>
    ensures { number_in result ≡ first (seal_faults (cipher_of kind) (sound_parts sound.entry)
        (file_length sound.entry (tag_length (cipher_of kind))) room) }
{
    name_fault(sound.name)?;
    if sound.value.len() != kind.value_bytes() {
        return Err(Refusal::BadValue);
    }
    if pack::LAST_KEY < sound.key {
        return Err(Refusal::BadKeyNumber);
    }
    let lowest = lowest_found(sound.samples);
    if pack::MOST_SAMPLES < sound.samples.len() {
        return Err(Refusal::ManySamples);
    }
    if 0 < lowest {
        return Err(Refusal::LowestSample);
    }
    if 2 * pack::MOST_LOOPS < sound.loops.len() || sound.loops.len() % 2 != 0 {
        return Err(Refusal::ManyLoops);
    }
    if !loops_in_rule(sound.loops, sound.samples.len()) {
        return Err(Refusal::BadLoop);
    }
    if room < file_length(sound, kind.tag_length()) {
        return Err(Refusal::NoRoom);
    }
    Ok(())
}
