// The bench's answers to an input of lines.
ghost use Rattle.console.specs.Bench.{answered_line, answers_from, bench_text, lines_answered};
ghost use Rattle.sheet.specs.Words.{sheet_of, words};
ghost use Rattle.std.specs.Prelude.{true, ◌≡◌, OnOk};
ghost use Rattle.std.specs.Io.KnownBytes.{Appends};
ghost use Rattle.text.specs.Answering.{AnsweredInput};
ghost use Rattle.text.specs.Buffer.{written};
ghost use Rattle.text.specs.Lines.{lines};

use crate::Lent;
use crate::bench::{ANSWER_ROOM, answer_part, opened};
use listener::State;
use std::io::{Error, Read, Write};
use text::answering::{Answering, Unanswered, answer_input};
use text::lines::{ROOM, line_end, part};
use text::writing::Text;

// What the bench is lent, the listener's state, the line that is being read, and the room for an answer.
#[derive(Drop)]
struct Bench<'a> {
    lent: Lent<'a>,
    state: State,
    line: Text<'a>,
    answer: &'a mut [u8; ANSWER_ROOM],
}

impl<'a> Bench<'a> {
    // Answers the line, and begins the next.
    #[tactic(auto, unfolding(crate::specs::Bench::answered_part, text::specs::Buffer::put_text), using(text::proofs::AnsweringLaws::part_written))]
    fn end_line<W: Write>(&mut self, output: &mut W) -> Result<(), Error>
        ensures same_lent { self.new.lent ≡ self.old.lent }
        ensures state_value { self.new.state ≡ (answered_line (sheet_of self.old.lent.sheet.now) (words self.old.lent.langs.now) self.old.state (written self.old.line) true).state }
        ensures line_after { written self.new.line ≡ (answered_line (sheet_of self.old.lent.sheet.now) (words self.old.lent.langs.now) self.old.state (written self.old.line) true).line }
        ensures answer { OnOk result (Appends (W.contents output.old) (W.contents output.new) (answered_line (sheet_of self.old.lent.sheet.now) (words self.old.lent.langs.now) self.old.state (written self.old.line) true).answer) }
    {
        let answered = answer_part(
            self.lent,
            self.state,
            &mut self.line,
            b"",
            true,
            self.answer,
        );
        self.state = answered.state;
        output.write_all(part(self.answer, 0, answered.count))
    }
}

impl<'a> Answering for Bench<'a> {
    ghost answers = { λ bench. answers_from (sheet_of bench.lent.sheet.now) (words bench.lent.langs.now) bench.state (written bench.line) };

    // Answers the lines that end in what was read, and keeps the beginning of the next. By lines: byte by byte each one of them would load
    // and store what the bench has of its line.
    #[tactic(auto, using(text::proofs::AnsweringLaws::no_byte_answered))]
    fn answer_read<W: Write>(&mut self, read: &[u8], output: &mut W) -> Result<(), Error> {
        let mut at = 0;
        for _ in 0..read.len() {
            let end = line_end(read, at);
            self.line.text(part(read, at, end));
            if end >= read.len() {
                return Ok(());
            }
            self.end_line(output)?;
            at = end + 1;
        }
        Ok(())
    }

    // At the end of the input a line without a newline is answered, unless it is empty.
    #[tactic(auto, using(crate::proofs::InputLaws::nothing_left, crate::proofs::InputLaws::line_left))]
    fn answer_last<W: Write>(&mut self, output: &mut W) -> Result<(), Error> {
        if self.line.count == 0 {
            return Ok(());
        }
        self.end_line(output)
    }
}

// Answers each line of an input, from a state on.
#[tactic(auto, using(crate::proofs::InputLaws::begun_answered))]
fn answer_from<I: Read, W: Write>(
    lent: Lent,
    state: State,
    answer: &mut [u8; ANSWER_ROOM],
    input: &mut I,
    output: &mut W,
) -> Result<(), Unanswered>
    ensures { OnOk result (AnsweredInput (λ bytes. lines_answered (sheet_of lent.entry.sheet.now) (words lent.entry.langs.now) state (lines bytes)) (I.remaining input.old) (W.contents output.old) (W.contents output.new)) }
{
    let mut room = [0u8; ROOM];
    let mut bench = Bench {
        lent,
        state,
        line: Text::new(&mut room),
        answer,
    };
    answer_input(input, output, &mut bench)
}

// Opens the sheet, and answers each line of an input.
#[tactic(auto, using(crate::proofs::InputLaws::opened_answered, text::proofs::AnsweringLaws::part_written))]
pub fn answer_lines<I: Read, W: Write>(
    lent: Lent,
    input: &mut I,
    output: &mut W,
) -> Result<(), Unanswered>
    ensures { OnOk result (AnsweredInput (bench_text (sheet_of lent.entry.sheet.now) (words lent.entry.langs.now)) (I.remaining input.old) (W.contents output.old) (W.contents output.new)) }
{
    let mut answer = [0u8; ANSWER_ROOM];
    let start = opened(lent, &mut answer);
    output
        .write_all(part(&answer, 0, start.count))
        .map_err(Unanswered::Unwritten)?;
    answer_from(lent, start.state, &mut answer, input, output)
}
