// Host players turn linear gain into tenths of a dB.
ghost use Rattle.std.specs.Prelude.{◌≡◌};
ghost use Rattle.factors.specs.Conversion.{conversion};
ghost use Rattle.host.specs.HostGain.{conversion_code};

use factors::FactorRefusal;
use factors::convert::gain_of_factor as converted;
use values::Gain;

// The refusal as a number of the check's kind: the C interface hands out one number for all answers.
const REFUSED: i32 = 1000000 * FactorRefusal::FactorTooHigh as i32;

// -32768, as in a sheet, for the C interface.
const SILENCE: i32 = -32768;

// The number of an answer. No `From`: neither `Result` nor `i32` is a type of this crate, and an impl stands in the crate of one of them.
#[tactic(auto, unfolding(crate::specs::HostGain::conversion_code))]
fn conversion_code(conversion: Result<Gain, FactorRefusal>) -> i32
    ensures { result ≡ conversion_code conversion }
{
    match conversion {
        Ok(Gain::Silent) => SILENCE,
        Ok(Gain::Tenths(z)) => i32::from(z),
        Err(FactorRefusal::FactorTooHigh) => REFUSED,
    }
}

// The gain of a factor in millionths: the tenths, -32768 for silence, 34,000,000 for refusal 34. Any number.
#[unsafe(no_mangle)]
pub extern "C" fn gain_of_factor(millionths: u32) -> i32
    ensures { result ≡ conversion_code (conversion millionths) }
{
    conversion_code(converted(millionths))
}
