#![tactic(auto)]

// The sender for callers in other languages, who keep its record as bytes. A refused call writes nothing of all that it
// was lent.
ghost use Rattle.std.specs.Prelude.{◌≡◌};
ghost use Rattle.refusals.specs.Answers.{number_in};
ghost use Rattle.refusals.specs.Outcome.{outcome};
ghost use Rattle.record_bytes.specs.Written.{wrote};
ghost use Rattle.sender_bytes.specs.Calls.{sender_make, sender_begin, sender_send, sender_hear};

use refusals::Refusal;
use sender::Sender;

pub fn make(sender: &mut [u8], key: &[u8], pair: &[u8]) -> Result<(), Refusal>
    ensures { outcome (number_in result) sender.new ≡ sender_make sender.old key.now pair.now }
{
    let made = Sender::new(key, pair)?;
    if sender.len() < sender_record::SENDER_BYTES {
        return Err(Refusal::NoRoom);
    }
    sender_record::write_sender(sender, made);
    Ok(())
}

pub fn begin(sender: &mut [u8], sound: &[u8]) -> Result<(), Refusal>
    ensures { outcome (number_in result) sender.new ≡ sender_begin sender.old sound.now }
{
    let begun = sender_record::sender_in(sender).begin(sound)?;
    sender_record::write_sender(sender, begun);
    Ok(())
}

pub fn send(
    sender: &[u8],
    sound: &[u8],
    frame: &mut [u8],
    written: &mut usize,
) -> Result<(), Refusal>
    ensures { wrote frame.new written.new (number_in result)
        ≡ sender_send sender.now sound.now frame.old written.old }
{
    *written = sender_record::sender_in(sender).send(sound, frame)?;
    Ok(())
}

pub fn hear(sender: &mut [u8], frame: &[u8]) -> Result<(), Refusal>
    ensures { outcome (number_in result) sender.new ≡ sender_hear sender.old frame.now }
{
    let informed = sender_record::sender_in(sender).hear(frame)?;
    sender_record::write_sender(sender, informed);
    Ok(())
}
