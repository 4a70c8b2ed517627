// The gains of factors as lines of text: each line of an input says a factor in millionths, and is answered by a line (document 02, L3).
#![tactic(auto)]

pub mod answers;
pub mod converter;
pub mod reading;
