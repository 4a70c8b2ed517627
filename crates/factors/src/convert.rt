// "A converter gives the least tenth of a dB that is not below it".
ghost use Rattle.std.specs.List.{position_or_len};
ghost use Rattle.std.specs.Prelude.{leb, ◌≡◌, ◌≤◌};
ghost use Rattle.factors.specs.Conversion.{conversion, least_tenth};
ghost use Rattle.factors.specs.Table.{entries};

use crate::FactorRefusal;
use crate::table::LARGEST;
use values::Gain;

// "34, the factor is above 11,220,184", the last entry.
pub const MOST_FACTOR: u32 = 11220184;

// The place of the first entry that is not below the factor; behind the last one where there is none.
fn first_not_below(factor: u32) -> usize
    ensures place { result ≡ position_or_len (λ n. leb factor n) entries }
    ensures within { result ≤ 811 }
{
    LARGEST.partition_point(|entry| *entry < factor)
}

// The tenth of that place, which is 600 more. It fits: the table has 811 places.
fn least_tenth(factor: u32) -> i16
    ensures { result ≡ least_tenth factor }
{
    first_not_below(factor) as i16 - 600
}

// The gain of a factor of so many millionths: "0 is silence".
pub fn gain_of_factor(millionths: u32) -> Result<Gain, FactorRefusal>
    ensures { result ≡ conversion millionths }
{
    if millionths > MOST_FACTOR {
        return Err(FactorRefusal::FactorTooHigh);
    }
    if millionths == 0 {
        return Ok(Gain::Silent);
    }
    Ok(Gain::Tenths(least_tenth(millionths)))
}
