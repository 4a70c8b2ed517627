// The values of a sheet: signed words, gains, offsets, languages and loudness. Numbers only, no slices.
// The sentences quoted in this crate are those of document 01, "The sheet".
#![tactic(auto)]

mod codes;
pub mod gains;
pub mod language;
pub mod offset;
pub mod signed;
pub mod values;

// "A gain is either silence (-32768) or a number of tenths of a dB": the number, legal or not. It is no `Option`: silence is a gain and not
// the absence of one, and document 01 names the two. The order is the declared one: "silence is below every number".
#[derive(Clone, Copy, PartialEq, Eq, PartialOrd, Ord)]
pub enum Gain {
    Silent,
    Tenths(i16),
}

// What a value or a range is of: an argument, and no trait with two types, since words of either sort are u16 and the definitions of the
// rules take the sort as an argument.
#[derive(Clone, Copy)]
pub enum Sort {
    Gains,
    Offsets,
}
