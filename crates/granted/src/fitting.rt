// Values that are an object's start value, or fit an interaction range.
ghost use Rattle.std.specs.Prelude.{ℕ, Bool, ◌&&◌, ◌≡◌};
ghost use Rattle.granted.specs.Fitting.{sound_gain, sound_offset};
ghost use Rattle.granted.specs.declared.Range.{Range};
ghost use Rattle.granted.specs.steps.NamedSet.{gain_within, is_gain, is_offset, is_range, offset_within, sound_by};
ghost use Rattle.sheet.specs.Words.{sheet_of};
ghost use Rattle.values.specs.declared.Sort.{Sort};
ghost use Rattle.values.specs.declared.Sort.TheVariants.{Gains, Offsets};

use crate::Range;
use crate::programme::{named_for, range_by, start_by};
use values::gains::{gain_in_range, gain_of, legal_gain};
use values::offset::{legal_offset, offset_in_range};
use values::signed::signed;
use values::values::is_absent;
use values::{Gain, Sort};

// What a gain and an offset have in common: words stand for them, and they are legal in some ranges.
pub trait Value: Copy {
    ghost SORT: { Sort };

    ghost is_word: { ℕ → Self → Bool };

    ghost within: { Range → Self → Bool };

    const SORT: Sort;

    // Whether the word stands for the value.
    fn is_word(self, word: u16) -> bool
        ensures { result ≡ is_word word self };

    // Whether the value is legal and in the range.
    fn within(self, range: Range) -> bool
        ensures { result ≡ within range self };
}

impl Value for Gain {
    ghost SORT = { Gains };

    ghost is_word = { is_gain };

    ghost within = { gain_within };

    const SORT: Sort = Sort::Gains;

    #[tactic(auto, unfolding(crate::specs::steps::NamedSet::is_gain), using(crate::proofs::SameLaws::eq_gain))]
    fn is_word(self, word: u16) -> bool {
        self == gain_of(word)
    }

    #[tactic(auto, unfolding(crate::specs::steps::NamedSet::gain_within))]
    fn within(self, range: Range) -> bool {
        let low = gain_of(range.minimum);
        let high = gain_of(range.maximum);
        legal_gain(self) & gain_in_range(low, self, high)
    }
}

impl Value for i16 {
    ghost SORT = { Offsets };

    ghost is_word = { is_offset };

    ghost within = { offset_within };

    const SORT: Sort = Sort::Offsets;

    fn is_word(self, word: u16) -> bool {
        self == signed(word)
    }

    #[tactic(auto, unfolding(crate::specs::steps::NamedSet::offset_within))]
    fn within(self, range: Range) -> bool {
        let low = signed(range.minimum);
        let high = signed(range.maximum);
        legal_offset(self) & offset_in_range(low, self, high)
    }
}

impl Range {
    // Whether there is a range.
    #[tactic(auto, unfolding(crate::specs::steps::NamedSet::is_range))]
    pub fn is_there(&self) -> bool
        ensures { result ≡ is_range self.now }
    {
        !is_absent(self.minimum)
    }
}

// "its start value or legal in its range"
#[tactic(auto, unfolding(crate::specs::steps::NamedSet::sound_by))]
fn sound_value<V: Value>(s: &[u8], o: u16, named: Option<u16>, value: V) -> bool
    ensures { result ≡ sound_by (sheet_of s.now) o named V.SORT V.is_word V.within value }
{
    if value.is_word(start_by(s, o, named, V::SORT)) {
        return true;
    }
    let range = range_by(s, o, named, V::SORT);
    range.is_there() & value.within(range)
}

// Both of an object, whose set is looked for once.
pub fn sound_values(s: &[u8], p: u16, o: u16, gain: Gain, offset: i16) -> bool
    ensures { result ≡ (sound_gain (sheet_of s.now) p o gain && sound_offset (sheet_of s.now) p o offset) }
{
    let named = named_for(s, p, o);
    sound_value(s, o, named, gain) & sound_value(s, o, named, offset)
}
