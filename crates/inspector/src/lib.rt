#![tactic(auto)]

// Inspecting a pack: what its survey and its tag say to one who has keys.
ghost use Rattle.std.specs.Prelude.{not, ◌≡◌, eqb, Ok};
ghost use Rattle.triad.specs.Tag.{triad};
ghost use Rattle.pack.specs.Answers.{opening_of};
ghost use Rattle.pack.specs.Calls.{accepted_opening, inspecting_file};
ghost use Rattle.pack.specs.Ciphers.{cipher_of};
ghost use Rattle.pack.specs.Faults.{file_faults};
ghost use Rattle.pack.specs.Places.{tag_in, tag_place, tag_due};
ghost use Rattle.refusals.specs.Numbers.{accepted};
ghost use Rattle.refusals.specs.Rules.{first};

use pack::{Kind, Opened, Rings};
use refusals::{Flaw, Refusal};

// Whether the tag of a file under TRIAD, which has no fault in itself, is another than the one that is due to it. Both
// are words, compared as such: where they differ takes no more and no less work.
fn tag_differs(file: &[u8], told: Opened, ring: [[u8; 16]; 4]) -> bool
    requires { (opening_of (Ok told) ≡ accepted_opening triad file.now)
        × (accepted ≡ first (file_faults triad file.now)) }
    ensures { result ≡ not (eqb (tag_due triad ring file.now)
        (tag_in triad file.now (tag_place triad file.now))) }
{
    let body_at = told.value_at + 16;
    let loop_at = told.loops_at - 1;
    let loops_size = 1 + 8 * told.loops;
    let front = octets::slice(file, 0, body_at);
    let value = octets::slice(file, told.value_at, 12);
    let body = octets::slice(file, body_at, 2 * told.samples);
    let loops = octets::slice(file, loop_at, loops_size);
    let due = triad_tags::tag_due(&ring[told.key as usize], value, front, loops, body);
    let tag_at = loop_at + loops_size + 1;
    // lent by itself, for the compiler to see that all of it is there
    let there = octets::number_at(&file[tag_at..tag_at + 8], 0, 8);
    due != there
}

// The same under any cipher: without a tag nothing differs.
fn tag_wrong(kind: Kind, file: &[u8], told: Opened, ring: [[u8; 16]; 4]) -> bool
    requires { (opening_of (Ok told) ≡ accepted_opening (cipher_of kind) file.now)
        × (accepted ≡ first (file_faults (cipher_of kind) file.now)) }
    ensures { result ≡ not (eqb (tag_due (cipher_of kind) ring file.now)
        (tag_in (cipher_of kind) file.now (tag_place (cipher_of kind) file.now))) }
{
    match kind {
        Kind::Trivium | Kind::Enocoro => false,
        Kind::Triad => tag_differs(file, told, ring),
    }
}

// What a file says of itself to one who has keys: its tag is looked at too.
pub fn inspect(file: &[u8], rings: Rings) -> Result<Opened, Flaw>
    ensures { opening_of result ≡ inspecting_file rings file.now }
{
    let opened = surveyor::survey(file)?;
    let kind = Kind::picked(file[opened.value_at - 2]);
    if tag_wrong(kind, file, opened, rings.of_triad) {
        return Err(Refusal::WrongTag.into());
    }
    Ok(opened)
}
