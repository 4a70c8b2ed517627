// "A gain is either silence (-32768) or a number of tenths of a dB from -600 to 210, and silence is below every number".
ghost use Rattle.std.specs.Prelude.{◌≡◌};
ghost use Rattle.values.specs.Gain.{
  gain_of,
  gain_in_range,
  legal_gain,
  legal_gain_minimum,
  legal_gain_maximum,
};

use crate::Gain;
use crate::signed::signed;

// The gain that a word stands for, legal or not: 32768 is the word of -32768. It is no `From<u16>`, since a u16 could as well be a number of
// tenths: the name, which is the definition's, says which of the two it is.
#[tactic(auto, unfolding(crate::specs::Gain::gain_of))]
pub fn gain_of(w: u16) -> Gain
    ensures { result ≡ gain_of w }
{
    if w == 32768 {
        Gain::Silent
    } else {
        Gain::Tenths(signed(w))
    }
}

// From `lo` to `hi`, both included. This and `offset_in_range` are the definitions of their names, by which callers' contracts speak. The
// contract of one for every `PartialOrd` could speak of the order of its type alone, and each caller would have to prove what that is.
#[tactic(auto, using(crate::proofs::GainOrder::between))]
pub fn gain_in_range(lo: Gain, g: Gain, hi: Gain) -> bool
    ensures { result ≡ gain_in_range lo g hi }
{
    (lo <= g) & (g <= hi)
}

// What is legal of a gain, a minimum and a maximum: three sentences of document 01, each a definition of its own. They differ in what they
// say of silence and in both ends, so that one function for all three would take a bool and two ends, and three would call it.

// "either silence (-32768) or a number of tenths of a dB from -600 to 210"
#[tactic(auto, unfolding(crate::specs::Gain::legal_gain))]
pub fn legal_gain(g: Gain) -> bool
    ensures { result ≡ legal_gain g }
{
    match g {
        Gain::Silent => true,
        Gain::Tenths(z) => (-600 <= z) & (z <= 210),
    }
}

// "Minimums: silence or -600 to 0"
#[tactic(auto, unfolding(crate::specs::Gain::legal_gain_minimum))]
pub fn legal_gain_minimum(g: Gain) -> bool
    ensures { result ≡ legal_gain_minimum g }
{
    match g {
        Gain::Silent => true,
        Gain::Tenths(z) => (-600 <= z) & (z <= 0),
    }
}

// "Maximums: 0 to 210"
#[tactic(auto, unfolding(crate::specs::Gain::legal_gain_maximum))]
pub fn legal_gain_maximum(g: Gain) -> bool
    ensures { result ≡ legal_gain_maximum g }
{
    match g {
        Gain::Silent => false,
        Gain::Tenths(z) => (0 <= z) & (z <= 210),
    }
}
