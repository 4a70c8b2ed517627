// Decimal numbers: digits, leading zeros among them, with a minus before them where the number may be negative.
ghost use Rattle.std.specs.Prelude.{◌≡◌};
ghost use Rattle.text.specs.Numbers.{gain_value_of, number_of, tenths_of, wide_number_of};

use crate::lines::same;
use values::Gain;

// A number of 32 bits. Not `str::parse`: it takes a plus sign, and needs a `str`.
#[tactic(auto, unfolding(crate::specs::Numbers::wide_number_of), using(crate::proofs::NumberLaws::digit_test, crate::proofs::NumberLaws::empty, crate::proofs::NumberLaws::stray, crate::proofs::NumberLaws::above, crate::proofs::NumberLaws::valued, crate::proofs::NumberLaws::judged, crate::proofs::NumberLaws::finished))]
pub fn wide_number_of(text: &[u8]) -> Option<u32>
    ensures { result ≡ wide_number_of text.now }
{
    if text.is_empty() {
        return None;
    }
    let mut n: u32 = 0;
    for byte in text {
        if !byte.is_ascii_digit() {
            return None;
        }
        n = n.checked_mul(10)?.checked_add(u32::from(*byte - b'0'))?;
    }
    Some(n)
}

// A number from 0 to 65535.
#[tactic(auto, unfolding(crate::proofs::NumberLaws::narrow), using(crate::proofs::NumberLaws::narrowed))]
pub fn number_of(text: &[u8]) -> Option<u16>
    ensures { result ≡ number_of text.now }
{
    u16::try_from(wide_number_of(text)?).ok()
}

// A number from -32768 to 32767.
#[tactic(auto, unfolding(crate::specs::Numbers::tenths_of, crate::specs::Numbers::positive, crate::specs::Numbers::negative))]
pub fn tenths_of(text: &[u8]) -> Option<i16>
    ensures { result ≡ tenths_of text.now }
{
    match text.strip_prefix(b"-") {
        Some(digits) => i16::try_from(-i32::from(number_of(digits)?)).ok(),
        None => i16::try_from(number_of(text)?).ok(),
    }
}

// A gain: `silence`, or a number of tenths. -32768 is that number, which is no legal gain, and not silence.
#[tactic(auto, unfolding(crate::specs::Numbers::gain_value_of))]
pub fn gain_value_of(text: &[u8]) -> Option<Gain>
    ensures { result ≡ gain_value_of text.now }
{
    if same(text, b"silence") {
        return Some(Gain::Silent);
    }
    tenths_of(text).map(Gain::Tenths)
}
