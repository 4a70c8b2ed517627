// The blocks that stand in bytes.
ghost use Rattle.std.specs.Prelude.{map, ◌≡◌};
ghost use Rattle.frames.specs.Blocks.{blocks};
ghost use Rattle.frames.specs.steps.Progress.{after_blocks};
ghost use Rattle.frameinput.specs.FrameInput.{numbers};
ghost use Rattle.frameinput.specs.steps.Chunks.{block_from};

use frames::Block;
use frames::progress::Progress;

// The block of three numbers, high byte first.
fn block_from(three: [[u8; 4]; 3]) -> Block
    ensures { result ≡ block_from three }
{
    let [start, length, third] = three;
    Block::from([
        u32::from_be_bytes(start),
        u32::from_be_bytes(length),
        u32::from_be_bytes(third),
    ])
}

// What a progress is after more blocks. A function of its own, so that the check proves the chain without an answer in proofs/.
fn after_blocks(progress: Progress, blocks: &[[[u8; 4]; 3]]) -> Progress
    ensures { result ≡ after_blocks progress (map block_from blocks.now) }
{
    blocks
        .iter()
        .map(|three| block_from(*three))
        .fold(progress, |progress, block| progress.after(block))
}

// What a progress is after the whole blocks of these bytes.
#[tactic(auto, using(crate::proofs::ChunkLaws::blocks_chunked))]
pub fn after_bytes(progress: Progress, bytes: &[u8]) -> Progress
    ensures { result ≡ after_blocks progress (blocks (numbers bytes.now)) }
{
    let (numbers, _) = bytes.as_chunks::<4>();
    let (blocks, _) = numbers.as_chunks::<3>();
    after_blocks(progress, blocks)
}
