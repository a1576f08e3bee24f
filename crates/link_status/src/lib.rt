#![tactic(auto)]

// What the records of both link ends say of their transfer, for callers in other languages, who keep them as bytes. A
// refused call writes nothing.
ghost use Rattle.std.specs.Prelude.{◌≡◌};
ghost use Rattle.refusals.specs.Answers.{number_in};
ghost use Rattle.refusals.specs.Outcome.{outcome};
ghost use Rattle.link_status.specs.Calls.{known_in, telling, sender_status, receiver_status};

use refusals::Refusal;
use sender::Phase;

// How many numbers a status has.
const NUMBERS: usize = 5;

// A status to the front of a run, if the record that it is of is in rule and it has room there.
#[tactic(auto, using(std::proofs::lemmas::Bool::Decides::nat_tests, octets::proofs::Buffers::put_placed), unfolding(refusals::specs::Rules::settled, refusals::specs::Rules::first, refusals::specs::Rules::told))]
fn tell_status(
    in_rule: bool,
    numbers: [usize; NUMBERS],
    answer: &mut [usize],
) -> Result<(), Refusal>
    ensures { outcome (number_in result) answer.new ≡ telling in_rule numbers answer.old }
{
    if !in_rule {
        return Err(Refusal::OutOfRule);
    }
    if answer.len() < NUMBERS {
        return Err(Refusal::NoRoom);
    }
    record_bytes::write_numbers(answer, &numbers);
    Ok(())
}

// How many of `all` blocks are known to be held in a phase.
fn known(phase: Phase, all: usize) -> usize
    ensures { result ≡ known_in all phase }
{
    match phase {
        Phase::Sending(known) => usize::from(known),
        Phase::Done => all,
        Phase::Idle | Phase::Opening | Phase::Refused(_) => 0,
    }
}

pub fn sender_status(sender: &[u8], answer: &mut [usize]) -> Result<(), Refusal>
    ensures { outcome (number_in result) answer.new ≡ sender_status sender.now answer.old }
{
    let record = sender_record::sender_in(sender);
    let (phase, _) = sender_record::phase_numbers(record.phase);
    let all = blocks::block_count(record.length) as usize;
    tell_status(
        record.in_rule(),
        [
            usize::from(phase),
            record.session as usize,
            record.length as usize,
            known(record.phase, all),
            all,
        ],
        answer,
    )
}

// The last number is 1 if there is a session and all blocks are held, otherwise 0.
pub fn receiver_status(receiver: &[u8], answer: &mut [usize]) -> Result<(), Refusal>
    ensures { outcome (number_in result) answer.new ≡ receiver_status receiver.now answer.old }
{
    let record = receiver_bytes::receiver_in(receiver);
    let held = usize::from(record.count);
    let all = blocks::block_count(record.length) as usize;
    tell_status(
        record.in_rule(),
        [
            record.session as usize,
            record.length as usize,
            held,
            all,
            usize::from(1 <= record.session && held == all),
        ],
        answer,
    )
}
