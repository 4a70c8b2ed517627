// The block times of a live frame: whether the blocks of one channel conform to the frame's length. Times are in microseconds.
// The sentences quoted in this crate are those of document 02, L5.
#![tactic(auto)]

mod blocks;
pub mod conformance;
mod error;
pub mod progress;

// A block of a channel: "start, length, initialising or not".
#[derive(Clone, Copy)]
pub struct Block {
    pub start: u32,
    pub length: u32,
    pub initialising: bool,
}

// Why blocks don't conform, with the error's number: "in this order, 35, an initialising block not first; 36, a bad length or start, or an
// unfinished last block; 37, no block at all (Table 20) or a total unlike the frame".
#[derive(Clone, Copy)]
pub enum FrameError {
    InitialisingNotFirst = 35,
    BadBlock,
    BadTotal,
}
