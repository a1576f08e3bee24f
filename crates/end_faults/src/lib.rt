#![tactic(auto)]

// What a file has wrong from its loop section on: the rules on loops, tag and end in their order.
ghost use Rattle.std.specs.Prelude.{◌≡◌, ◌+◌, ◌*◌, ◌<◌, ◌≤◌, length, MatchResult};
ghost use Rattle.octets.specs.Digits.{number_at};
ghost use Rattle.octets.specs.Rows.{numbers_at};
ghost use Rattle.octets.specs.Stream.{Cipher};
ghost use Rattle.pack.specs.Ciphers.{cipher_of};
ghost use Rattle.pack.specs.Faults.{end_faults, tag_section_faults, faults_from_loops};
ghost use Rattle.pack.specs.Layout.{loops_good, fours, tag_length};
ghost use Rattle.refusals.specs.Answers.{verdict_in};
ghost use Rattle.refusals.specs.Rules.{verdict};

use pack::Kind;
use refusals::{Flaw, Refusal};

// The number that four bytes from `at` make, all of them there. They are lent by themselves, for the compiler to see
// that none is missing: it then drops the reading of fewer.
fn four_there(file: &[u8], at: usize) -> u32
    requires { at + 4 ≤ length file.now }
    ensures { result ≡ number_at file.now at 4 }
{
    octets::four_at(&file[at..at + 4], 0)
}

// Whether each of so many loops from `at` is in rule.
fn loops_good(file: &[u8], at: usize, count: usize, samples: usize) -> bool
    requires { at + 8 * count ≤ length file.now }
    ensures { result ≡ loops_good samples (numbers_at (fours (2 * count)) file.now at) }
{
    for i in 0..count {
        let start = four_there(file, at + 8 * i) as usize;
        let end = four_there(file, at + 8 * i + 4) as usize;
        if end <= start || samples < end {
            return false;
        }
    }
    true
}

// Whether a file reaches a place, or breaks off before it.
pub fn reach(file: &[u8], place: usize, cut: Refusal) -> Result<(), Flaw>
    ensures { MatchResult result (λ _. place ≤ length file.now)
        (λ flaw. (flaw.refusal ≡ cut) × ((length file.now < place) × (length file.now + flaw.lacks ≡ place))) }
{
    if file.len() < place {
        return Err(Flaw {
            refusal: cut,
            lacks: place - file.len(),
        });
    }
    Ok(())
}

// Whether anything stands behind the last section, which ends at `at`.
fn end_fault(file: &[u8], at: usize) -> Result<(), Flaw>
    ensures { verdict_in result ≡ verdict (end_faults file.now at) }
{
    if at < file.len() {
        return Err(Refusal::MoreBytes.into());
    }
    Ok(())
}

// What a file has wrong from its tag section on, which begins at `at` and should have so many bytes, its count
// included; none if its cipher brings no tag.
fn tag_fault(file: &[u8], at: usize, size: usize) -> Result<(), Flaw>
    requires { (at ≤ length file.now) × (size ≤ 21) }
    ensures { (cipher : Cipher) → tag_length cipher ≡ size
        → verdict_in result ≡ verdict (tag_section_faults cipher file.now at) }
{
    if size == 0 {
        return end_fault(file, at);
    }
    reach(file, at + 1, Refusal::BadTagSection)?;
    if file[at] as usize != size - 1 {
        return Err(Refusal::BadTagSection.into());
    }
    let end = at + size;
    reach(file, end, Refusal::BadTagSection)?;
    end_fault(file, end)
}

// What a file has wrong from its loop section on, which begins at `at`, under a cipher.
pub fn loop_fault(file: &[u8], at: u32, samples: usize, kind: Kind) -> Result<(), Flaw>
    ensures { verdict_in result ≡ verdict (faults_from_loops (cipher_of kind) file.now at samples) }
{
    let start = at as usize;
    reach(file, start + 1, Refusal::CutInLoops)?;
    let count = file[start] as usize;
    if pack::MOST_LOOPS < count {
        return Err(Refusal::ManyLoops.into());
    }
    let end = start + 1 + 8 * count;
    reach(file, end, Refusal::CutInLoops)?;
    if !loops_good(file, start + 1, count, samples) {
        return Err(Refusal::BadLoop.into());
    }
    tag_fault(file, end, kind.tag_length())
}
