// The answer to an input.
ghost use Rattle.frameinput.specs.Answer.{Answered};

use crate::Unjudged;
use crate::line::frame_line;
use crate::reading::read_verdict;
use std::io::{Read, Write};

// Writes the line of the verdict on the frame that an input has; nothing before the input was read to its end.
pub fn answer_frame<R: Read, W: Write>(input: &mut R, output: &mut W) -> Result<(), Unjudged>
    ensures { Answered result (R.remaining input.old) (W.contents output.old) (W.contents output.new) }
{
    let verdict = read_verdict(input)?;
    output
        .write_all(frame_line(verdict))
        .map_err(Unjudged::Unwritten)
}
