#![tactic(auto)]

// Packs for callers in other languages, who lend the rings of keys as one run of bytes. A refused call writes nothing
// of all that it was lent.
ghost use Rattle.std.specs.Prelude.{◌≡◌};
ghost use Rattle.pack.specs.Layout.{parts};
ghost use Rattle.record_bytes.specs.Written.{wrote};
ghost use Rattle.refusals.specs.Answers.{number_in};
ghost use Rattle.pack_bytes.specs.Calls.{pack_opened, pack_open, pack_seal};

use pack::Kind;
use refusals::Refusal;
use seal_faults::Sound;

pub fn open(
    file: &[u8],
    keys: &[u8],
    samples: &mut [i16],
    answer: &mut [usize],
) -> Result<(), Refusal>
    ensures { pack_opened samples.new answer.new (number_in result)
        ≡ pack_open file.now keys.now samples.old answer.old }
{
    let rings = rings::rings_in(keys)?;
    if answer.len() < survey_bytes::NUMBERS {
        inspector::inspect(file, rings)?;
        return Err(Refusal::NoRoom);
    }
    let opened = opener::open(file, rings, samples)?;
    survey_bytes::tell(answer, opened);
    Ok(())
}

// The cipher is told by its key count. A count of none is looked at behind the name, where the file would have it.
pub fn seal(
    name: &[u8],
    keys: &[u8],
    cipher: u8,
    key: u8,
    value: &[u8],
    samples: &[i16],
    loops: &[u32],
    output: &mut [u8],
    written: &mut usize,
) -> Result<(), Refusal>
    ensures { wrote output.new written.new (number_in result)
        ≡ pack_seal cipher keys.now
        (parts name.now key value.now samples.now loops.now)
        output.old written.old }
{
    let rings = rings::rings_in(keys)?;
    seal_faults::name_fault(name)?;
    let kind = Kind::try_from(cipher)?;
    let sound = Sound {
        name,
        key,
        value,
        samples,
        loops,
    };
    *written = sealer::seal(kind, sound, rings, output)?;
    Ok(())
}
