// A script's steps, each answered with a line.
use crate::steps::{Step, TestStep, WordList, step_of};
use console::Lent;
use console::answers::put_words;
use console::bench::{ANSWER_ROOM, Answered, obey, opened};
use listener::{Refusal, Setting, State};
use std::fmt;
use std::fmt::Write;
use text::lines::{part, said};
use text::output::write_output;
use text::writing::Text;

// As in `tracks 3 of 5 : 0 1 5 65535 65535`, or `refused 32 of ..`.
fn put_listing(text: &mut Text, listing: Result<u64, Refusal>, words: &[u16]) -> fmt::Result {
    match listing {
        Ok(entries) => write!(text, "tracks {entries}")?,
        Err(refusal) => {
            let number = u16::from(refusal);
            write!(text, "refused {number}")?;
        }
    }
    let room = words.len();
    write!(text, " of {room} :")?;
    put_words(text, words);
    text.text(b"\n");
    Ok(())
}

// Lists into the first n words of a buffer of 64.
fn list_into(text: &mut Text, lent: Lent, state: State, n: usize) {
    let mut buffer = [65535u16; 64];
    match buffer.get_mut(..n) {
        Some(words) => {
            let listing = state.list(lent.sheet, lent.langs, words);
            // a `Text` takes each piece
            let _ = put_listing(text, listing, words);
        }
        None => text.text(b"?\n"),
    }
}

// The state with another setting for an object.
fn put_object(text: &mut Text, state: State, o: u16, x: Setting) -> State {
    let mut next = state;
    match next.objects.get_mut(usize::from(o)) {
        Some(setting) => {
            *setting = x;
            text.text(b"put\n");
        }
        None => text.text(b"?\n"),
    }
    next
}

// Answers a test's own step, and gives the state after it.
fn take_test(text: &mut Text, lent: Lent, state: State, step: TestStep) -> State {
    match step {
        TestStep::List(n) => list_into(text, lent, state, usize::from(n)),
        TestStep::PutObject(o, x) => return put_object(text, state, o, x),
        TestStep::PutProgramme(programme) => {
            text.text(b"put\n");
            return State { programme, ..state };
        }
        TestStep::Lend(list) => {
            let words = list.as_bytes().len() / 2;
            let _ = writeln!(text, "lent {words}");
        }
    }
    state
}

// Answers a step, and gives the state after it.
fn take(lent: Lent, state: State, step: Step, answer: &mut [u8; ANSWER_ROOM]) -> Answered {
    match step {
        Step::Bench(command) => obey(lent, state, command, answer),
        Step::Open => opened(lent, answer),
        Step::Test(test) => {
            let mut text = Text::new(answer);
            let next = take_test(&mut text, lent, state, test);
            Answered {
                state: next,
                count: text.count,
            }
        }
    }
}

// Opens the sheet, then answers each line of the script; what follows its last newline is a line too, unless it is empty. A step is
// answered under the last list that the script lent, or else under the one that the opening was lent.
pub fn answer_script<R: Print + Eprint>(rt: &R, lent: Lent, script: &[u8]) {
    let mut answer = [0u8; ANSWER_ROOM];
    let mut answered = opened(lent, &mut answer);
    // a failure is told, and ends nothing
    let _ = write_output(rt, &answer[..answered.count]);
    let mut list = None;
    for line in script.split_inclusive(|byte| *byte == b'\n') {
        let step = step_of(said(line.strip_suffix(b"\n").unwrap_or(line)));
        if let Step::Test(TestStep::Lend(words)) = step {
            list = Some(words);
        }
        let langs = list.as_ref().map_or(lent.langs, WordList::as_bytes);
        answered = take(Lent { langs, ..lent }, answered.state, step, &mut answer);
        let _ = write_output(rt, part(&answer, 0, answered.count));
    }
}
