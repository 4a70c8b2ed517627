// Document 02's number of the error, which is the declared one.
ghost use Rattle.std.specs.Prelude.{◌≡◌};
ghost use Rattle.frames.specs.Conformance.{error_number};

use crate::FrameError;

impl From<FrameError> for u32 {
    ghost from_gives = { λ error n. n ≡ error_number error };

    fn from(error: FrameError) -> u32 {
        error as u32
    }
}
