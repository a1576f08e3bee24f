#![tactic(auto)]

// Packs as frames of floats for callers in other languages, who lend the rings of keys as one run of bytes. A refused
// call writes nothing of all that it was lent.
ghost use Rattle.std.specs.Prelude.{◌≡◌};
ghost use Rattle.refusals.specs.Answers.{number_in};
ghost use Rattle.pack_bytes.specs.Calls.{pack_opened};
ghost use Rattle.stereo_bytes.specs.Calls.{pack_open_stereo};

use refusals::Refusal;

pub fn open(
    file: &[u8],
    keys: &[u8],
    frames: &mut [f32],
    answer: &mut [usize],
) -> Result<(), Refusal>
    ensures { pack_opened frames.new answer.new (number_in result)
        ≡ pack_open_stereo file.now keys.now frames.old answer.old }
{
    let rings = rings::rings_in(keys)?;
    if answer.len() < survey_bytes::NUMBERS {
        let told = inspector::inspect(file, rings);
        let samples = told.map_or(0, |opened| opened.samples);
        stereo_opener::frames_fault(told.and(Ok(())), samples, frames.len())?;
        return Err(Refusal::NoRoom);
    }
    let opened = stereo_opener::open(file, rings, frames)?;
    survey_bytes::tell(answer, opened);
    Ok(())
}
