// The listener: "It is a layer of its own and knows the checker only by what that guarantees." Its state is a value that each call takes
// and hands back.
#![tactic(auto)]

use values::Gain;

pub mod calls;
pub mod programme;
mod refusals;
pub mod settings;
pub mod sounding;
pub mod writing;

// One object's setting: active or not, its gain, its offset in tenths of a degree.
#[derive(Clone, Copy)]
pub struct Setting {
    pub active: bool,
    pub gain: Gain,
    pub offset: i16,
}

// "for 84 objects active, gain, offset"
pub const STATE_OBJECTS: usize = 84;

// The lowest number that no object of a state has. By `as`, since a constant calls no `try_from`.
pub const STATE_END: u16 = STATE_OBJECTS as u16;

// The most entries that a listing has: 28, at level 2.
pub const MOST_ENTRIES: usize = 28;

// "a programme, and for 84 objects active, gain, offset": fixed memory, since the project has no heap.
#[derive(Clone, Copy)]
pub struct State {
    pub programme: u16,
    pub objects: [Setting; STATE_OBJECTS],
}

// The listener's own refusals by document 01's numbers, 25 to 32.
#[derive(Clone, Copy, Debug, PartialEq, Eq)]
pub enum Refusal {
    NotAccepted = 25,
    Unsound,
    NoProgramme,
    NotIncluded,
    NotInGroup,
    NoRange,
    Outside,
    TooFewWords,
}

// What a call hands back: whether it is done, and the state, which a refused call hands back as it was given. Not a
// `Result<State, Refusal>`: a refused call hands back a state too.
#[derive(Clone, Copy)]
pub struct Reply {
    pub answer: Result<(), Refusal>,
    pub state: State,
}
