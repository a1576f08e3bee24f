#![tactic(auto)]

// What a pack file says of itself, for callers in other languages, who lend runs for it. A refused call writes nothing
// of all that it was lent.
ghost use Rattle.std.specs.Prelude.{◌≡◌, Ok, ◌+◌, ◌*◌, ◌≤◌, length};
ghost use Rattle.octets.specs.Buffers.{put};
ghost use Rattle.octets.specs.Rows.{numbers_at};
ghost use Rattle.refusals.specs.Answers.{number_in};
ghost use Rattle.refusals.specs.Outcome.{outcome};
ghost use Rattle.pack.specs.Answers.{opening_of};
ghost use Rattle.pack.specs.Layout.{fours};
ghost use Rattle.record_bytes.specs.Written.{wrote};
ghost use Rattle.survey_bytes.specs.Calls.{answer_numbers, pack_survey, pack_lacks, pack_loops};

use pack::Opened;
use refusals::Refusal;

// How many numbers tell what a pack holds.
pub const NUMBERS: usize = 7;

// Writes what a pack holds to the front of a run, if it has room there.
pub fn tell(answer: &mut [usize], opened: Opened)
    ensures { answer.new ≡ put answer.old 0 (answer_numbers (opening_of (Ok opened))) }
{
    let numbers = [
        opened.samples,
        opened.key as usize,
        opened.loops,
        opened.name_length,
        opened.name_at,
        opened.value_at,
        opened.loops_at,
    ];
    record_bytes::write_numbers(answer, &numbers);
}

pub fn survey(file: &[u8], answer: &mut [usize]) -> Result<(), Refusal>
    ensures { outcome (number_in result) answer.new ≡ pack_survey file.now answer.old }
{
    let opened = surveyor::survey(file)?;
    if answer.len() < NUMBERS {
        return Err(Refusal::NoRoom);
    }
    tell(answer, opened);
    Ok(())
}

// How many bytes are missing of the section in which a file breaks off; 0 if it doesn't.
pub fn lacks(file: &[u8]) -> usize
    ensures { result ≡ pack_lacks file.now }
{
    match surveyor::survey(file) {
        Ok(_) => 0,
        Err(flaw) => flaw.lacks,
    }
}

// Reads numbers of four bytes from `at` on to the front of a run that has room for them. Each is lent by itself, for
// the compiler to see that all of it is there.
fn read_numbers(bytes: &[u8], at: usize, n: usize, numbers: &mut [u32])
    requires { (at + 4 * n ≤ length bytes.now) × (n ≤ length numbers.old) }
    ensures { numbers.new ≡ put numbers.old 0 (numbers_at (fours n) bytes.now at) }
{
    for i in 0..n {
        let place = at + 4 * i;
        numbers[i] = octets::four_at(&bytes[place..place + 4], 0);
    }
}

// A loop is two numbers, its start and its end.
pub fn loops(file: &[u8], loops: &mut [u32], written: &mut usize) -> Result<(), Refusal>
    ensures { wrote loops.new written.new (number_in result)
        ≡ pack_loops file.now loops.old written.old }
{
    let told = surveyor::survey(file)?;
    let count = 2 * told.loops;
    if loops.len() < count {
        return Err(Refusal::NoRoom);
    }
    read_numbers(file, told.loops_at, count, loops);
    *written = count;
    Ok(())
}
