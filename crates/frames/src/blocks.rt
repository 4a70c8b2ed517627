// "All are unsigned numbers of 32 bits, three to a block, the third 0 if it isn't initialising and any other if it is."
ghost use Rattle.std.specs.Prelude.{◌≡◌};
ghost use Rattle.frames.specs.Blocks.{block_of};

use crate::Block;

impl From<[u32; 3]> for Block {
    ghost from_gives = { λ three block. block ≡ block_of three };

    fn from(three: [u32; 3]) -> Block {
        let [start, length, third] = three;
        Block {
            start,
            length,
            initialising: third != 0,
        }
    }
}
