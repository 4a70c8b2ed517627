// The words of either sort. Each function is the definition of its name. Words stay words, 32767 for absent, and are no `Option`: so the
// definitions take them, as they stand in a sheet.
ghost use Rattle.std.specs.Prelude.{◌≡◌};
ghost use Rattle.values.specs.Values.{
  is_absent,
  or_else,
  is_value,
  is_minimum,
  is_maximum,
  in_range,
};

use crate::Sort;
use crate::gains::{gain_of, legal_gain, legal_gain_maximum, legal_gain_minimum};
use crate::offset::{legal_offset, legal_offset_maximum, legal_offset_minimum, offset_in_range};
use crate::signed::signed;

// "In gain, offset and range words 32767 means absent"
#[tactic(auto, unfolding(crate::specs::Values::is_absent))]
pub fn is_absent(w: u16) -> bool
    ensures { result ≡ is_absent w }
{
    w == 32767
}

// `w`, or `other` where `w` is absent.
#[tactic(auto, unfolding(crate::specs::Values::or_else))]
pub fn or_else(w: u16, other: u16) -> u16
    ensures { result ≡ or_else w other }
{
    if is_absent(w) { other } else { w }
}

// A legal value, minimum and maximum: each a definition over one of gains and one of offsets; one function for all three would take which
// of the six to ask.

// A legal value of that sort.
#[tactic(auto, unfolding(crate::specs::Values::is_value))]
pub fn is_value(sort: Sort, w: u16) -> bool
    ensures { result ≡ is_value sort w }
{
    match sort {
        Sort::Gains => legal_gain(gain_of(w)),
        Sort::Offsets => legal_offset(signed(w)),
    }
}

// A legal minimum of a range of that sort.
#[tactic(auto, unfolding(crate::specs::Values::is_minimum))]
pub fn is_minimum(sort: Sort, w: u16) -> bool
    ensures { result ≡ is_minimum sort w }
{
    match sort {
        Sort::Gains => legal_gain_minimum(gain_of(w)),
        Sort::Offsets => legal_offset_minimum(signed(w)),
    }
}

// A legal maximum of a range of that sort.
#[tactic(auto, unfolding(crate::specs::Values::is_maximum))]
pub fn is_maximum(sort: Sort, w: u16) -> bool
    ensures { result ≡ is_maximum sort w }
{
    match sort {
        Sort::Gains => legal_gain_maximum(gain_of(w)),
        Sort::Offsets => legal_offset_maximum(signed(w)),
    }
}

// The value `w` lies in the range from `lo` to `hi`, both included. The word of silence is that of the least number, so that one order
// of numbers serves both sorts, and no sort is asked.
pub fn in_range(sort: Sort, lo: u16, w: u16, hi: u16) -> bool
    ensures { result ≡ in_range sort lo w hi }
{
    offset_in_range(signed(lo), signed(w), signed(hi))
}
