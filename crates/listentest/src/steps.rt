// The lines of a script: those of the listening bench, and steps that only a test takes:
//     open | list N | put programme N | put object I active V W      (or inactive)
//     lend W W W ..
// `lend` lends another list of languages to all that follows in the script: 0 to 64 words.
use console::commands::{Command, command_of};
use listener::Setting;
use text::lines::{field, field_count, part};
use text::numbers::{gain_value_of, number_of, tenths_of};
use text::writing::Text;

// The most words that `lend` lends.
const MOST_WORDS: usize = 64;

// A list of words as bytes, high byte first. They stand in the step itself, so that no heap is used.
#[derive(Clone, Copy)]
pub struct WordList {
    bytes: [u8; 2 * MOST_WORDS],
    count: usize,
}

impl WordList {
    pub(crate) fn as_bytes(&self) -> &[u8] {
        part(&self.bytes, 0, self.count)
    }
}

// A step that only a test takes.
#[derive(Clone, Copy)]
pub enum TestStep {
    // Lists into so many words.
    List(u16),
    PutProgramme(u16),
    PutObject(u16, Setting),
    Lend(WordList),
}

#[derive(Clone, Copy)]
pub enum Step {
    // A command, or a line that is none.
    Bench(Option<Command>),
    Open,
    Test(TestStep),
}

// The step that a line says.
pub fn step_of(line: &[u8]) -> Step {
    if let (1, b"open") = (field_count(line), field(line, 0)) {
        return Step::Open;
    }
    match test_step_of(line) {
        Some(step) => Step::Test(step),
        None => Step::Bench(command_of(line)),
    }
}

fn test_step_of(line: &[u8]) -> Option<TestStep> {
    match (field_count(line), field(line, 0), field(line, 1)) {
        (2, b"list", room) => Some(TestStep::List(number_of(room)?)),
        (n, b"lend", _) => Some(TestStep::Lend(words_of(line, n)?)),
        (3, b"put", b"programme") => Some(TestStep::PutProgramme(number_of(field(line, 2))?)),
        (6, b"put", b"object") => {
            let o = number_of(field(line, 2))?;
            Some(TestStep::PutObject(o, setting_of(line)?))
        }
        _ => None,
    }
}

// The words behind the first of n fields.
fn words_of(line: &[u8], n: usize) -> Option<WordList> {
    let words = n.checked_sub(1)?;
    if words > MOST_WORDS {
        return None;
    }
    let mut bytes = [0u8; 2 * MOST_WORDS];
    let mut list = Text::new(&mut bytes);
    // it fits: 64 at most
    for k in 0..words as u8 {
        list.text(&number_of(field(line, k + 1))?.to_be_bytes());
    }
    let count = list.count;
    Some(WordList { bytes, count })
}

// The object's setting stands in the fields from 3 on.
fn setting_of(line: &[u8]) -> Option<Setting> {
    Some(Setting {
        active: activity_of(field(line, 3))?,
        gain: gain_value_of(field(line, 4))?,
        offset: tenths_of(field(line, 5))?,
    })
}

fn activity_of(name: &[u8]) -> Option<bool> {
    match name {
        b"active" => Some(true),
        b"inactive" => Some(false),
        _ => None,
    }
}
