#![tactic(auto)]

// What a file has wrong: the rules on a pack in their order, apart from what is done with one that is right. Where the
// file breaks off, the flaw says in which section, and how many bytes are missing of its count or else of its body.
// Of the first two counts, of one byte, it is that one, since a section is read from where the one before it ends.
ghost use Rattle.std.specs.Prelude.{◌≡◌, ◌≤◌, length};
ghost use Rattle.pack.specs.Ciphers.{cipher_of, picked, cipher_in};
ghost use Rattle.pack.specs.Faults.{faults_from_samples, faults_from_key, file_faults};
ghost use Rattle.pack.specs.Places.{byte_at};
ghost use Rattle.refusals.specs.Answers.{verdict_in};
ghost use Rattle.refusals.specs.Rules.{verdict};

use end_faults::reach;
use pack::Kind;
use refusals::{Flaw, Refusal};

// What a file has wrong from its sample section on, which begins at `at`, under a cipher. The count is lent by itself,
// for the compiler to see that all of it is there: it then drops the reading of fewer bytes.
fn sample_fault(file: &[u8], at: usize, kind: Kind) -> Result<(), Flaw>
    requires { (at ≤ length file.now) × (at ≤ 289) }
    ensures { verdict_in result ≡ verdict (faults_from_samples (cipher_of kind) file.now at) }
{
    reach(file, at + 4, Refusal::CutInSamples)?;
    let count = octets::four_at(&file[at..at + 4], 0) as usize;
    if pack::MOST_SAMPLES < count {
        return Err(Refusal::ManySamples.into());
    }
    let end = at + 4 + 2 * count;
    reach(file, end, Refusal::CutInSamples)?;
    end_faults::loop_fault(file, end as u32, count, kind)
}

// What a file has wrong from its key section on, which begins at `at`.
fn key_fault(file: &[u8], at: usize) -> Result<(), Flaw>
    requires { (at ≤ length file.now) × (at ≤ 33) }
    ensures { verdict_in result
        ≡ verdict (faults_from_key (cipher_of (picked (byte_at file.now at))) file.now at) }
{
    reach(file, at + 1, Refusal::CutInKey)?;
    let kind = Kind::try_from(file[at])?;
    let end = at + 2 + kind.value_bytes();
    reach(file, end, Refusal::CutInKey)?;
    if pack::LAST_KEY < file[at + 1] {
        return Err(Refusal::BadKeyNumber.into());
    }
    sample_fault(file, end, kind)
}

// What a file has wrong, from its name on: each section goes on to the one behind it.
pub fn file_fault(file: &[u8]) -> Result<(), Flaw>
    ensures { verdict_in result ≡ verdict (file_faults (cipher_in file.now) file.now) }
{
    reach(file, 1, Refusal::CutInName)?;
    let count = file[0] as usize;
    if pack::MOST_NAME < count {
        return Err(Refusal::LongName.into());
    }
    let end = 1 + count;
    reach(file, end, Refusal::CutInName)?;
    if !pack::name_good(&file[1..end]) {
        return Err(Refusal::BadName.into());
    }
    key_fault(file, end)
}
