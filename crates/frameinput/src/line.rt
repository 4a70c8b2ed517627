// The line of a verdict.
ghost use Rattle.std.specs.Prelude.{◌≡◌};
ghost use Rattle.frameinput.specs.FrameLine.{frame_line};

use frames::FrameError;

// `accepted`, or the error's number as in `rule 35`, and the line's end. Four texts, so that no buffer is needed to write a number into.
#[tactic(auto, unfolding(crate::specs::FrameLine::frame_line, text::specs::Decimal::decimal, text::specs::Decimal::spelled))]
pub fn frame_line(verdict: Result<(), FrameError>) -> &'static [u8]
    ensures { result.now ≡ frame_line verdict }
{
    match verdict {
        Ok(()) => b"accepted\n",
        Err(FrameError::InitialisingNotFirst) => b"rule 35\n",
        Err(FrameError::BadBlock) => b"rule 36\n",
        Err(FrameError::BadTotal) => b"rule 37\n",
    }
}
