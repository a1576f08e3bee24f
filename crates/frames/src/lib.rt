#![tactic(auto)]

ghost use Rattle.std.specs.Prelude.{◌≡◌, [], ◌∷◌};
ghost use Rattle.octets.specs.Buffers.{put};
ghost use Rattle.octets.specs.Rows.{row};
ghost use Rattle.trivium.specs.Keystream.{trivium};
ghost use Rattle.blocks.specs.Blocks.{block_of};
ghost use Rattle.blocks.specs.Covering.{covered};
ghost use Rattle.frames.specs.Frames.{block, bytes, heard};
ghost use Rattle.frames.specs.Told.{kind_of, told};

// What a message says. A block tells how many bytes it has: they begin at byte 8 of the message.
#[derive(Clone, Copy)]
pub enum Told {
    Opening(u32, u32),
    Block(u32, u16, usize),
    Holds(u32, u16),
    TooLong(u32),
}

// The first byte of each frame.
#[derive(Clone, Copy)]
pub enum FrameKind {
    Opening = 1,
    Block = 2,
    Holds = 3,
    TooLong = 4,
}

impl FrameKind {
    fn of(byte: u8) -> Option<FrameKind>
        ensures { result ≡ kind_of byte }
    {
        match byte {
            1 => Some(FrameKind::Opening),
            2 => Some(FrameKind::Block),
            3 => Some(FrameKind::Holds),
            4 => Some(FrameKind::TooLong),
            _ => None,
        }
    }
}

// What a message says, if it is a frame. Its size is asked before its bytes are read, for the compiler to see that they
// are there.
pub fn read(message: &[u8]) -> Option<Told>
    ensures { result ≡ told (heard message.now) }
{
    let size = message.len();
    if size < 5 {
        return None;
    }
    let session = octets::four_at(message, 1);
    if session == 0 {
        return None;
    }
    match FrameKind::of(message[0])? {
        FrameKind::Opening if size == 9 => {
            let sound = octets::four_at(message, 5);
            if sound as usize <= blocks::MOST_BYTES {
                Some(Told::Opening(session, sound))
            } else {
                None
            }
        }
        FrameKind::Block if 9 <= size => {
            let count = message[7] as usize;
            if size == 8 + count && count <= blocks::BLOCK_BYTES {
                Some(Told::Block(session, octets::two_at(message, 5), count))
            } else {
                None
            }
        }
        FrameKind::Holds if size == 7 => Some(Told::Holds(session, octets::two_at(message, 5))),
        FrameKind::TooLong if size == 5 => Some(Told::TooLong(session)),
        _ => None,
    }
}

// Writes a frame's first byte, its session and one more number of so many bytes, if they have room.
pub fn write_short(frame: &mut [u8], kind: u64, session: u32, width: usize, number: u64)
    ensures { frame.new ≡ put frame.old 0 (row (1 ∷ 4 ∷ width ∷ []) (kind ∷ session ∷ number ∷ [])) }
{
    if frame.len() < 5 || frame.len() - 5 < width {
        return;
    }
    octet_writer::write_number(frame, 0, 1, kind);
    octet_writer::write_number(frame, 1, 4, session as u64);
    octet_writer::write_number(frame, 5, width, number);
}

// Writes the frame of block k of a sound, if it has room. Its bytes come from key, pair name, session and block number
// alone, so a block sent again is the same block.
pub fn write_block(
    key: &[u8; 10],
    pair: &[u8; 6],
    session: u32,
    k: u16,
    sound: &[u8],
    frame: &mut [u8],
)
    ensures { frame.new ≡ put frame.old 0
        (bytes (block session k (covered trivium key.now pair.now session k (block_of sound.now k)))) }
{
    let run = octets::slice(
        sound,
        blocks::BLOCK_BYTES * (k as usize),
        blocks::BLOCK_BYTES,
    );
    let n = run.len();
    if frame.len() < 8 || frame.len() - 8 < n {
        return;
    }
    write_short(frame, FrameKind::Block as u64, session, 2, k as u64);
    octet_writer::write_number(frame, 7, 1, n as u64);
    blocks::cover(key, pair, session, k, run, frame, 8);
}
