// Reading a frame, and judging it.
ghost use Rattle.frameinput.specs.Answer.{Judged};
ghost use Rattle.frameinput.specs.steps.Reading.{BlocksJudged};

use crate::Unjudged;
use crate::blocks::after_bytes;
use frames::FrameError;
use frames::progress::Progress;
use std::io::{Error, ErrorKind, Read};
use text::reading::read_input;

// How many bytes a block takes: three numbers of 32 bits.
const BLOCK_BYTES: usize = 12;

// How many are read at once: the most whole blocks in 4,096.
const BLOCKS_ROOM: usize = 341 * BLOCK_BYTES;

// Reads the blocks of a frame of this length to the input's end. The loop counts its turns for the reason that `answer_input` has for it
// (crates/text/src/answering.rt).
fn read_blocks<R: Read>(input: &mut R, frame: u32) -> Result<Result<(), FrameError>, Unjudged>
    ensures { BlocksJudged frame result (R.remaining input.old) }
{
    let mut buffer = [0u8; BLOCKS_ROOM];
    let mut progress = Progress::new();
    for _ in 0..u64::MAX {
        let count = read_input(input, &mut buffer)?;
        progress = after_bytes(progress, &buffer[..count]);
        if count < BLOCKS_ROOM {
            return Ok(progress.verdict(frame, count % BLOCK_BYTES != 0));
        }
    }
    Err(Unjudged::Unread(Error::from(ErrorKind::Other)))
}

// The verdict on the frame that an input has.
pub fn read_verdict<R: Read>(input: &mut R) -> Result<Result<(), FrameError>, Unjudged>
    ensures { Judged result (R.remaining input.old) }
{
    let mut head = [0u8; 4];
    if read_input(input, &mut head)? < head.len() {
        return Err(Unjudged::NoFrameLength);
    }
    read_blocks(input, u32::from_be_bytes(head))
}
