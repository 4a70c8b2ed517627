// An input that comes in reads of any length: the lines that end in one are answered, the beginning of the next is kept.
ghost use Rattle.std.specs.Prelude.{[], ◌≡◌, ◌≤◌, length};
ghost use Rattle.factorlines.specs.Reading.{after_read, last_answer, reading};
ghost use Rattle.text.specs.Buffer.{TextFilled, written};

use crate::answers::put_factor_line;
use text::answering::READ_ROOM;
use text::writing::Text;

// More room than the answers to the lines of a read take: at most 22 bytes for each byte.
pub const ANSWERS_ROOM: usize = 22 * READ_ROOM;

// Answers the lines that end in a read, gives the length of the answers, and keeps the beginning of the next line.
// The length stands beside the lent buffer, since the contract says what the whole buffer has afterwards: a `Text` handed out would keep
// the buffer lent, and a clause could then name the text alone.
pub fn answer_read(line: &mut Text, read: &[u8], answers: &mut [u8; ANSWERS_ROOM]) -> usize
    ensures same_buffer { line.new.buffer.ghost_name ≡ line.old.buffer.ghost_name }
    ensures line_after { written line.new ≡ (after_read (reading (written line.old) []) read.now).line }
    ensures text_filled { length read.now ≤ READ_ROOM → TextFilled answers.old (after_read (reading (written line.old) []) read.now).answers result answers.new }
{
    let mut text = Text::new(answers);
    for byte in read {
        if *byte == b'\n' {
            put_factor_line(&mut text, line.as_bytes());
            line.clear();
        } else {
            line.byte(*byte);
        }
    }
    text.count
}

// At the end of the input a line without a newline is answered, unless it is empty. It gives a length as `answer_read` does.
pub fn answer_last(line: &Text, answers: &mut [u8; ANSWERS_ROOM]) -> usize
    ensures { TextFilled answers.old (last_answer (written line.now)) result answers.new }
{
    if line.count == 0 {
        return 0;
    }
    let mut answer = Text::new(answers);
    put_factor_line(&mut answer, line.as_bytes());
    answer.count
}
