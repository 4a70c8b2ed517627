// A frame as an input of bytes, of any length, and the line of its verdict (document 02, L5): the frame length and the blocks of one channel
// as "unsigned numbers of 32 bits, three to a block", high byte first.
#![tactic(auto)]

use std::io::Error;

pub mod answer;
mod blocks;
pub mod line;
pub mod reading;
mod unread;

// Why an input got no verdict.
#[derive(Clone, Copy)]
pub enum Unjudged {
    // It is shorter than a frame length.
    NoFrameLength,
    // A read failed.
    Unread(Error),
    // The line could not be written.
    Unwritten(Error),
}
