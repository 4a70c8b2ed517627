// The value sets of an object.
ghost use Rattle.std.specs.Prelude.{◌+◌, false, ◌≡◌};
ghost use Rattle.profile.specs.Counting.{any};
ghost use Rattle.screen.specs.steps.Values.{gain_broken, has_range, none_present, own_leaves, set_broken, set_words_broken, value_leaves, values_at, words_broken};
ghost use Rattle.sheet.specs.Fields.{value_sets};
ghost use Rattle.sheet.specs.Layout.{start};
ghost use Rattle.sheet.specs.Words.{sheet_of};

use crate::ObjectValues;
use lists::words::{ends_before, record_after, word_at};
use relations::sets::{Positions, Values};
use sheet::fields::{SET_OWN, VALUE_SETS};
use sheet::spans::Span;
use values::Sort;
use values::values::{is_absent, or_else};

// A value with its range, at the positions of a record whose words begin at an index. `values_in` of relations finds that index for each of the
// three words; here it is known.
#[tactic(auto, unfolding(crate::specs::steps::Values::values_at))]
pub fn values_at(s: &[u8], at: u32, position: Positions) -> Values
    ensures { result ≡ values_at (sheet_of s.now) (at + position.value) (at + position.minimum) (at + position.maximum) }
{
    Values {
        value: word_at(s, at, position.value),
        minimum: word_at(s, at, position.minimum),
        maximum: word_at(s, at, position.maximum),
    }
}

// The value, 0 where it is absent, leaves the range.
#[tactic(auto, unfolding(crate::specs::steps::Values::own_leaves))]
pub(crate) fn own_leaves(sort: Sort, v: Values) -> bool
    ensures { result ≡ own_leaves sort v }
{
    let value = or_else(v.value, 0);
    Values { value, ..v }.leaves(sort)
}

// A set's value leaves its effective range, or where it is the set's own, the object's range. `own` is the parameter of the definition, which
// takes the range from the set or the object by it; handed a range in its place, each caller would choose.
#[tactic(auto, unfolding(crate::specs::steps::Values::value_leaves))]
fn value_leaves(sort: Sort, own: bool, set: Values, object: Values) -> bool
    ensures { result ≡ value_leaves sort own set object }
{
    let range = if own { set } else { object };
    let effective = Values {
        value: or_else(set.value, or_else(object.value, 0)),
        ..range
    };
    let ranged = Values {
        value: set.value,
        ..object
    };
    effective.leaves(sort) | !is_absent(set.value) & ranged.leaves(sort)
}

// A set with own 0 that has no more than a gain: the object's offset is its own. There is no such function for offsets, since sets with no
// more than an offset are rarer.
#[tactic(auto, unfolding(crate::specs::steps::Values::gain_broken))]
fn gain_breaks(gains: Values, v: ObjectValues) -> bool
    ensures { result ≡ gain_broken gains v }
{
    gains.bad_words(Sort::Gains)
        | value_leaves(Sort::Gains, false, gains, v.gains)
        | own_leaves(Sort::Offsets, v.offsets)
}

// A set with any words. That an offset or its range is present is written out: by `!offsets.none_present()`, which `set_breaks` asked before,
// tried and proved, the check of the largest honest sheet takes 1.1 % more instructions, where the forms taken up before had used up its
// 2 % (docs/DECISIONS.md, 135).
#[tactic(auto, unfolding(crate::specs::steps::Values::set_words_broken))]
fn words_of_set_break(own: u16, gains: Values, offsets: Values, v: ObjectValues) -> bool
    ensures { result ≡ set_words_broken own gains offsets v }
{
    (1 < own)
        | gains.bad_words(Sort::Gains)
        | offsets.bad_words(Sort::Offsets)
        | (own == 0) & (gains.has_range() | offsets.has_range())
        | (v.interact == 0) & (own == 1)
        | (!is_absent(offsets.value) | offsets.has_range()) & !v.front
        | value_leaves(Sort::Gains, own == 1, gains, v.gains)
        | value_leaves(Sort::Offsets, own == 1, offsets, v.offsets)
}

// Whether the set whose words begin at an index may break rule 6, 16, 17 or 18 as a set of an object with these values. Most sets have
// no more than a gain.
#[tactic(auto, unfolding(crate::specs::steps::Values::set_broken), using(crate::proofs::SetLaws::only_gain))]
fn set_breaks(s: &[u8], at: u32, v: ObjectValues) -> bool
    ensures { result ≡ false → set_broken (sheet_of s.now) v at ≡ false }
{
    if ends_before(s, VALUE_SETS, at) {
        return true;
    }
    let own = word_at(s, at, SET_OWN);
    let gains = values_at(s, at, Positions::in_set(Sort::Gains));
    let offsets = values_at(s, at, Positions::in_set(Sort::Offsets));
    if (own == 0) & !gains.has_range() & offsets.none_present() {
        return gain_breaks(gains, v);
    }
    words_of_set_break(own, gains, offsets, v)
}

// Whether one of the sets of a span does.
#[tactic(auto, unfolding(profile::specs::Counting::any), using(profile::proofs::BoolLaws::or_none))]
pub fn any_set_breaks(s: &[u8], sets: Span, v: ObjectValues) -> bool
    ensures { result ≡ false → any (λ i. set_broken (sheet_of s.now) v (start (sheet_of s.now) value_sets (sets.first + i))) sets.count ≡ false }
{
    let mut found = false;
    for i in 0..sets.count {
        found |= set_breaks(s, record_after(s, VALUE_SETS, sets.first, i), v);
    }
    found
}
