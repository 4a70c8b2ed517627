// What the programs read and write: files and arguments, lines and their fields, numbers, and texts in a lent buffer.
#![tactic(auto)]

pub mod answering;
pub mod lines;
pub mod numbers;
pub mod output;
pub mod reading;
pub mod sheets;
pub mod writing;
