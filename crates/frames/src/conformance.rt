// Conformance to Table 23 of source document 004, ITU-R BS.2168.
ghost use Rattle.std.specs.Prelude.{map, ◌≡◌};
ghost use Rattle.frames.specs.Blocks.{block_of};
ghost use Rattle.frames.specs.Conformance.{conformance};
ghost use Rattle.frames.specs.steps.Progress.{after_blocks};

use crate::progress::Progress;
use crate::{Block, FrameError};

// What a progress is after more blocks. A function of its own, so that the check proves the chain without an answer in proofs/.
fn after_blocks(progress: Progress, blocks: &[[u32; 3]]) -> Progress
    ensures { result ≡ after_blocks progress (map block_of blocks.now) }
{
    blocks
        .iter()
        .map(|three| Block::from(*three))
        .fold(progress, |progress, block| progress.after(block))
}

// Whether the blocks of one channel, three numbers to a block, conform to a frame of this length: any list of numbers.
#[tactic(auto, unfolding(crate::specs::Conformance::conformance, crate::specs::Blocks::is_unfinished), using(crate::proofs::BlockLaws::blocks_cut, crate::proofs::ProgressLaws::blocks_told))]
pub fn check_frame(frame: u32, numbers: &[u32]) -> Result<(), FrameError>
    ensures { result ≡ conformance frame numbers.now }
{
    let (blocks, rest) = numbers.as_chunks::<3>();
    after_blocks(Progress::new(), blocks).verdict(frame, !rest.is_empty())
}
