// Host players get live frames, and check the block times of each channel before they play them.
ghost use Rattle.std.specs.Prelude.{◌≡◌};
ghost use Rattle.frames.specs.Conformance.{conformance};
ghost use Rattle.host.specs.HostFrame.{frame_code};

use frames::FrameError;
use frames::conformance::check_frame;

// The number of a verdict, for the C interface. No `From`, for the reason that `conversion_code` has (gain.rt).
#[tactic(auto, unfolding(crate::specs::HostFrame::frame_code))]
fn frame_code(verdict: Result<(), FrameError>) -> u32
    ensures { result ≡ frame_code verdict }
{
    match verdict {
        Ok(()) => 0,
        Err(error) => u32::from(error),
    }
}

// 0 where the blocks of a channel conform to a frame of this length, else the error's number, 35 to 37: any list of numbers.
#[unsafe(no_mangle)]
pub extern "C" fn frame_check(frame: u32, numbers: &[u32]) -> u32
    ensures { result ≡ frame_code (conformance frame numbers.now) }
{
    frame_code(check_frame(frame, numbers))
}
