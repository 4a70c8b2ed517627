// The converter of factors: what it writes for an input is the answers to its lines.
ghost use Rattle.factorlines.specs.FactorLines.{factor_lines};
ghost use Rattle.factorlines.specs.Reading.{answers_from};
ghost use Rattle.std.specs.Prelude.{OnOk};
ghost use Rattle.text.specs.Answering.{AnsweredInput};
ghost use Rattle.text.specs.Buffer.{written};

use crate::reading::{ANSWERS_ROOM, answer_last, answer_read};
use std::io::{Error, Read, Write};
use text::answering::{Answering, Unanswered, answer_input};
use text::lines::{ROOM, part};
use text::writing::Text;

// The line that is being read, and the room for answers.
#[derive(Drop)]
struct Converter<'a> {
    line: Text<'a>,
    answers: &'a mut [u8; ANSWERS_ROOM],
}

impl<'a> Answering for Converter<'a> {
    ghost answers = { λ converter. answers_from (written converter.line) };

    #[tactic(auto, using(crate::proofs::FromLaws::read_answered, text::proofs::AnsweringLaws::part_written))]
    fn answer_read<W: Write>(&mut self, read: &[u8], output: &mut W) -> Result<(), Error> {
        let count = answer_read(&mut self.line, read, self.answers);
        output.write_all(part(self.answers, 0, count))
    }

    #[tactic(auto, using(crate::proofs::FromLaws::last_answered))]
    fn answer_last<W: Write>(&mut self, output: &mut W) -> Result<(), Error> {
        let count = answer_last(&self.line, self.answers);
        output.write_all(part(self.answers, 0, count))
    }
}

// Answers each line of an input.
#[tactic(auto, using(crate::proofs::FromLaws::input_from))]
pub fn answer_factors<I: Read, W: Write>(input: &mut I, output: &mut W) -> Result<(), Unanswered>
    ensures { OnOk result (AnsweredInput factor_lines (I.remaining input.old) (W.contents output.old) (W.contents output.new)) }
{
    let mut room = [0u8; ROOM];
    let mut answers = [0u8; ANSWERS_ROOM];
    let mut converter = Converter {
        line: Text::new(&mut room),
        answers: &mut answers,
    };
    answer_input(input, output, &mut converter)
}
