// The figures that a refusal by rule 18, 20 or 24 is told with (document 02, L1), by the verdict.
#![tactic(auto)]

pub mod by_verdict;
pub mod clashes;
pub mod lists;
pub mod members;
pub mod ranges;
pub mod shares;

// The number of a figure: a word of the sheet, taken as signed, or a number that follows from the sheet, a kind or a share. Both are
// numbers and neither is the absence of the other, so it is no `Option` and no `Result`.
#[derive(Clone, Copy, PartialEq, Eq)]
pub enum FigureNumber {
    Word(u16),
    Derived(u32),
}

// A figure: the section and the index of its record, and its number. Sections have document 01's numbers, which a figure's line prints: an
// enum of sections would be turned into them again.
#[derive(Clone, Copy)]
pub struct Figure {
    pub section: u8,
    pub index: u16,
    pub number: FigureNumber,
}

// Where a word stands: the section, by its number as in a figure, and the index of its record, and the word's position there.
#[derive(Clone, Copy)]
pub struct WordPlace {
    pub section: u8,
    pub index: u16,
    pub at: u8,
}

// Two figures that break the rule, side by side.
#[derive(Clone, Copy)]
pub struct Clash {
    pub first: Figure,
    pub second: Figure,
}

// No refusal has more figures.
pub const MOST_FIGURES: usize = 16;

// The first `count` figures are there, in the order in which they are told. A number beside an array, since there is no heap. Both can be
// read and written, so a caller may give any number: `as_slice` takes no more than there are places.
#[derive(Clone, Copy)]
pub struct Figures {
    pub count: usize,
    pub lines: [Figure; MOST_FIGURES],
}
