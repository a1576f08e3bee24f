#![tactic(auto)]

// Surveying a pack: what its faults decide, and where its parts stand.
ghost use Rattle.std.specs.Prelude.{◌≡◌};
ghost use Rattle.pack.specs.Answers.{opening_of};
ghost use Rattle.pack.specs.Calls.{surveying_file};

use pack::Opened;
use refusals::Flaw;

// What a file says of itself, before any room for its samples is looked at.
pub fn survey(file: &[u8]) -> Result<Opened, Flaw>
    ensures { opening_of result ≡ surveying_file file.now }
{
    open_faults::file_fault(file)?;
    let name_length = file[0] as usize;
    let key_at = 1 + name_length;
    let sample_at = key_at + 1 + file[key_at] as usize;
    // lent by itself, for the compiler to see that all of it is there
    let samples = octets::four_at(&file[sample_at..sample_at + 4], 0) as usize;
    let loop_at = sample_at + 4 + 2 * samples;
    Ok(Opened {
        samples,
        key: file[key_at + 1],
        loops: file[loop_at] as usize,
        name_length,
        name_at: 1,
        value_at: key_at + 2,
        loops_at: loop_at + 1,
    })
}
