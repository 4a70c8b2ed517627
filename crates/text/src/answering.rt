// Answering an input as it comes, before its end.
ghost use Rattle.std.specs.Io.KnownBytes.{Appends};
ghost use Rattle.std.specs.Prelude.{ℕ, [], ◌≤◌, length, List, OnOk};
ghost use Rattle.text.specs.Answering.{AnsweredRead, AnsweredInput};

use std::io::{Error, ErrorKind, Read, Write};

// The most bytes of a read.
pub const READ_ROOM: usize = 4096;

// Why an input was not answered to its end.
#[derive(Clone, Copy)]
pub enum Unanswered {
    // A read failed.
    Unread(Error),
    // An answer could not be written.
    Unwritten(Error),
}

// What a program makes of its input.
pub trait Answering {
    // What is written for the input from here on.
    ghost answers: { Self → List ℕ → List ℕ };

    // Answers what was read, which is no more than `answer_input` reads at once.
    fn answer_read<W: Write>(&mut self, read: &[u8], output: &mut W) -> Result<(), Error>
        ensures { length read.now ≤ READ_ROOM → OnOk result (AnsweredRead answers self.old self.new read.now (W.contents output.old) (W.contents output.new)) };

    // Answers what is left at the end of the input.
    fn answer_last<W: Write>(&mut self, output: &mut W) -> Result<(), Error>
        ensures { OnOk result (Appends (W.contents output.old) (W.contents output.new) (answers self.old [])) };
}

// Answers what is there before more is read, until the input ends, a read fails or an answer can't be written. Where the bytes of input and
// output are known, what was written answers the whole input, however it was cut into reads. A proved loop has to end, and nothing says
// that the input does: so this one counts its turns, to a number that no run comes to, and past it answers as where a read fails.
#[tactic(auto, using(crate::proofs::AnsweringLaws::none_answered, crate::proofs::AnsweringLaws::read_answered, crate::proofs::AnsweringLaws::input_answered))]
pub fn answer_input<I: Read, W: Write, A: Answering>(
    input: &mut I,
    output: &mut W,
    answering: &mut A,
) -> Result<(), Unanswered>
    ensures { OnOk result (AnsweredInput (A.answers answering.old) (I.remaining input.old) (W.contents output.old) (W.contents output.new)) }
{
    let mut buffer = [0u8; READ_ROOM];
    for _ in 0..u64::MAX {
        match input.read(&mut buffer) {
            Ok(0) => return answering.answer_last(output).map_err(Unanswered::Unwritten),
            Ok(count) => {
                answering
                    .answer_read(&buffer[..count], output)
                    .map_err(Unanswered::Unwritten)?;
            }
            Err(error) => return Err(Unanswered::Unread(error)),
        }
    }
    Err(Unanswered::Unread(Error::from(ErrorKind::Other)))
}
