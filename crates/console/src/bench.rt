// The listening bench: a command is a call of the listener or a question, and its answer is written into a lent buffer.
ghost use Rattle.std.specs.Prelude.{◌≡◌};
ghost use Rattle.console.specs.Answers.{answer_line};
ghost use Rattle.console.specs.Bench.{answer_to, call_of, answered_part, state_after};
ghost use Rattle.guarantee.specs.Run.{reply};
ghost use Rattle.listener.specs.Calls.{opened};
ghost use Rattle.sheet.specs.Words.{sheet_of, words};
ghost use Rattle.text.specs.Buffer.{Appends, TextFilled, written};

use crate::Lent;
use crate::answers::{put_answer, put_listing, put_state};
use crate::commands::{Call, Command, command_of};
use listener::calls::open;
use listener::{Reply, State};
use text::lines::said;
use text::writing::Text;

// More room than any answer takes: a state's has a line for each of its 84 objects.
pub const ANSWER_ROOM: usize = 8192;

// The listener's state after a command, and the length of the answer. The answer stands in an array that the caller lends: no heap. No
// slice of it in place of the length: the contracts speak of the whole array, and so say what stands behind the answer too. No one function
// writes and makes an `Answered` for `opened`, `obey` and listentest's steps: it would take the writing as a closure, and its `TextFilled`
// would have to be told what the closure appends, and that there is room for it.
#[derive(Clone, Copy)]
pub struct Answered {
    pub state: State,
    pub count: usize,
}

// Opens the sheet.
pub fn opened(lent: Lent, answer: &mut [u8; ANSWER_ROOM]) -> Answered
    ensures state_value { result.state ≡ (opened (sheet_of lent.entry.sheet.now) (words lent.entry.langs.now)).state }
    ensures text_filled { TextFilled answer.old (answer_line (opened (sheet_of lent.entry.sheet.now) (words lent.entry.langs.now)).answer) result.count answer.new }
{
    let opening = open(lent.sheet, lent.langs);
    let mut text = Text::new(answer);
    put_answer(&mut text, opening.answer);
    Answered {
        state: opening.state,
        count: text.count,
    }
}

// What a call hands back.
#[tactic(auto, unfolding(guarantee::specs::Run::reply, crate::specs::Bench::call_of))]
fn reply_to(lent: Lent, state: State, call: Call) -> Reply
    ensures { result ≡ reply (sheet_of lent.entry.sheet.now) (words lent.entry.langs.now) state (call_of call) }
{
    match call {
        Call::Programme(p) => state.choose_programme(lent.sheet, lent.langs, p),
        Call::Object(o) => state.choose_object(lent.sheet, lent.langs, o),
        Call::Gain(o, gain) => state.set_gain(lent.sheet, lent.langs, o, gain),
        Call::Offset(o, offset) => state.set_offset(lent.sheet, lent.langs, o, offset),
    }
}

// Writes the answer to a command, and gives the state after it.
#[tactic(auto, unfolding(crate::specs::Bench::state_after, crate::specs::Bench::answer_to, crate::specs::Answers::unknown_line))]
fn put_answer_to(text: &mut Text, lent: Lent, state: State, command: Option<Command>) -> State
    ensures state_value { result ≡ state_after (sheet_of lent.entry.sheet.now) (words lent.entry.langs.now) state command }
    ensures appended { Appends text.old (answer_to (sheet_of lent.entry.sheet.now) (words lent.entry.langs.now) state command) text.new }
{
    match command {
        Some(Command::Call(call)) => {
            let reply = reply_to(lent, state, call);
            put_answer(text, reply.answer);
            return reply.state;
        }
        Some(Command::List) => put_listing(text, lent, state),
        Some(Command::State) => put_state(text, state),
        None => text.text(b"?\n"),
    }
    state
}

// Answers a command, or a line that is none, and gives the state after it.
pub fn obey(
    lent: Lent,
    state: State,
    command: Option<Command>,
    answer: &mut [u8; ANSWER_ROOM],
) -> Answered
    ensures state_value { result.state ≡ state_after (sheet_of lent.entry.sheet.now) (words lent.entry.langs.now) state command }
    ensures text_filled { TextFilled answer.old (answer_to (sheet_of lent.entry.sheet.now) (words lent.entry.langs.now) state command) result.count answer.new }
{
    let mut text = Text::new(answer);
    let next = put_answer_to(&mut text, lent, state, command);
    Answered {
        state: next,
        count: text.count,
    }
}

// Adds what was read to the line, and answers the line if it is whole. `whole` is a flag, since the definition `answered_part` takes one,
// and `cut_anywhere`, that it doesn't matter how a line is cut into reads, holds for both of its values. `answer_lines` (input.rt) ends each
// line by it, with no more bytes.
#[tactic(auto, unfolding(crate::specs::Bench::answered_part, crate::specs::Bench::answered_line))]
pub fn answer_part(
    lent: Lent,
    state: State,
    line: &mut Text,
    more: &[u8],
    whole: bool,
    answer: &mut [u8; ANSWER_ROOM],
) -> Answered
    ensures state_value { result.state ≡ (answered_part (sheet_of lent.entry.sheet.now) (words lent.entry.langs.now) state (written line.old) more.now whole).state }
    ensures same_buffer { line.new.buffer.ghost_name ≡ line.old.buffer.ghost_name }
    ensures line_after { written line.new ≡ (answered_part (sheet_of lent.entry.sheet.now) (words lent.entry.langs.now) state (written line.old) more.now whole).line }
    ensures text_filled { TextFilled answer.old (answered_part (sheet_of lent.entry.sheet.now) (words lent.entry.langs.now) state (written line.old) more.now whole).answer result.count answer.new }
{
    line.text(more);
    if !whole {
        return Answered { state, count: 0 };
    }
    let answered = obey(lent, state, command_of(said(line.as_bytes())), answer);
    line.clear();
    answered
}
