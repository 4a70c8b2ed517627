// What the blocks of a channel come to, block by block, in fixed memory: so an input may have any number of them.
ghost use Rattle.std.specs.Prelude.{◌≡◌};
ghost use Rattle.frames.specs.Conformance.{legal_length};
ghost use Rattle.frames.specs.steps.Progress.{after_block, no_progress, verdict_after};

use crate::{Block, FrameError};

// "each other length is 0 or at least 5,000"
const LEAST_LENGTH: u32 = 5000;

// What the blocks so far come to. A struct and no enum of the first error: the end is then found without the tests of start and length, so
// that the processor need not finish one block before it begins the next (docs/SPEED.md).
#[derive(Clone, Copy)]
pub struct Progress {
    // Whether there was one.
    has_block: bool,
    // Whether an initialising one was not first.
    initialising_not_first: bool,
    // Whether one had a bad length or start.
    has_bad_block: bool,
    // Where the last one that is not initialising ends: while none is bad, the sum of the lengths.
    end: u64,
}

// By `|`, here and in `after`: so no test is a branch.
#[tactic(auto, unfolding(crate::specs::Conformance::legal_length))]
fn legal_length(length: u32) -> bool
    ensures { result ≡ legal_length length }
{
    (length == 0) | (length >= LEAST_LENGTH)
}

impl Progress {
    // Before the first block.
    pub fn new() -> Progress
        ensures { result ≡ no_progress }
    {
        Progress {
            has_block: false,
            initialising_not_first: false,
            has_bad_block: false,
            end: 0,
        }
    }

    // One block more. No end passes 33 bits.
    #[tactic(auto, unfolding(crate::specs::steps::Progress::after_block))]
    pub fn after(self, block: Block) -> Progress
        ensures { result ≡ after_block self block }
    {
        if block.initialising {
            return Progress {
                has_block: true,
                initialising_not_first: self.initialising_not_first | self.has_block,
                has_bad_block: self.has_bad_block,
                end: self.end,
            };
        }
        let start = u64::from(block.start);
        Progress {
            has_block: true,
            initialising_not_first: self.initialising_not_first,
            has_bad_block: self.has_bad_block | (start != self.end) | !legal_length(block.length),
            end: start + u64::from(block.length),
        }
    }

    // The verdict on a frame of this length with these whole blocks; `unfinished` says that numbers are left over.
    #[tactic(auto, unfolding(crate::specs::steps::Progress::verdict_after, crate::specs::Conformance::first_error))]
    pub fn verdict(self, frame: u32, unfinished: bool) -> Result<(), FrameError>
        ensures { result ≡ verdict_after self frame unfinished }
    {
        if self.initialising_not_first {
            Err(FrameError::InitialisingNotFirst)
        } else if self.has_bad_block || unfinished {
            Err(FrameError::BadBlock)
        } else if !self.has_block || self.end != u64::from(frame) {
            Err(FrameError::BadTotal)
        } else {
            Ok(())
        }
    }
}
