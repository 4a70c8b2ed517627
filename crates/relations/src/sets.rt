// Value sets: whose they are, and the effective values and ranges.
ghost use Rattle.std.specs.Prelude.{not, ◌&&◌, ◌||◌, ◌≡◌};
ghost use Rattle.profile.specs.Relations.{effective_maximum, effective_minimum, effective_value, has_set, object_maximum, object_minimum, object_value, own_value, set_maximum, set_minimum, set_value};
ghost use Rattle.profile.specs.Rules.{bad_words, leaves};
ghost use Rattle.sheet.specs.Fields.{objects, value_sets};
ghost use Rattle.sheet.specs.Layout.{field};
ghost use Rattle.sheet.specs.Words.{sheet_of};
ghost use Rattle.values.specs.Values.{is_absent};

use sheet::fields::{
    OBJECT_GAIN, OBJECT_GAIN_MAXIMUM, OBJECT_GAIN_MINIMUM, OBJECT_OFFSET, OBJECT_OFFSET_MAXIMUM,
    OBJECT_OFFSET_MINIMUM, OBJECTS, SET_GAIN, SET_GAIN_MAXIMUM, SET_GAIN_MINIMUM, SET_OFFSET,
    SET_OFFSET_MAXIMUM, SET_OFFSET_MINIMUM, SET_OWN, SET_SPAN, VALUE_SETS,
};
use sheet::layout::field;
use sheet::spans::Span;
use values::Sort;
use values::values::{in_range, is_absent, is_maximum, is_minimum, is_value, or_else};

// Where a record has the value of a sort, and the ends of its range: `in_object` and `in_set` differ in the constants, which are all that
// they have, so that one function for both would take the six of them.
#[derive(Clone, Copy)]
pub struct Positions {
    pub value: u8,
    pub minimum: u8,
    pub maximum: u8,
}

// A value of one sort with its range: three words, each of which may be absent. They stay words, as in the definitions `bad_words` and
// `leaves`: an `Option` for each would be made at each read of a sheet and taken apart in each contract.
// Its fields have the names of those of `Positions`, but a type for both would have methods of either that make no sense of the other.
#[derive(Clone, Copy)]
pub struct Values {
    pub value: u16,
    pub minimum: u16,
    pub maximum: u16,
}

impl Positions {
    // In an object.
    pub fn in_object(sort: Sort) -> Positions
        ensures value { result.value ≡ object_value sort }
        ensures minimum { result.minimum ≡ object_minimum sort }
        ensures maximum { result.maximum ≡ object_maximum sort }
    {
        match sort {
            Sort::Gains => Positions {
                value: OBJECT_GAIN,
                minimum: OBJECT_GAIN_MINIMUM,
                maximum: OBJECT_GAIN_MAXIMUM,
            },
            Sort::Offsets => Positions {
                value: OBJECT_OFFSET,
                minimum: OBJECT_OFFSET_MINIMUM,
                maximum: OBJECT_OFFSET_MAXIMUM,
            },
        }
    }

    // In a value set.
    pub fn in_set(sort: Sort) -> Positions
        ensures value { result.value ≡ set_value sort }
        ensures minimum { result.minimum ≡ set_minimum sort }
        ensures maximum { result.maximum ≡ set_maximum sort }
    {
        match sort {
            Sort::Gains => Positions {
                value: SET_GAIN,
                minimum: SET_GAIN_MINIMUM,
                maximum: SET_GAIN_MAXIMUM,
            },
            Sort::Offsets => Positions {
                value: SET_OFFSET,
                minimum: SET_OFFSET_MINIMUM,
                maximum: SET_OFFSET_MAXIMUM,
            },
        }
    }
}

impl Values {
    // Whether a minimum or a maximum is present.
    pub fn has_range(self) -> bool
        ensures { result ≡ (not (is_absent self.minimum) || not (is_absent self.maximum)) }
    {
        !is_absent(self.minimum) | !is_absent(self.maximum)
    }

    // Whether neither the value nor a range is present.
    pub fn none_present(self) -> bool
        ensures { result ≡ (is_absent self.value && not (not (is_absent self.minimum) || not (is_absent self.maximum))) }
    {
        is_absent(self.value) & !self.has_range()
    }

    // Words outside their values, or half a pair.
    #[tactic(auto, unfolding(profile::specs::Rules::bad_words))]
    pub fn bad_words(self, sort: Sort) -> bool
        ensures { result ≡ bad_words sort self.value self.minimum self.maximum }
    {
        let low = is_absent(self.minimum);
        let high = is_absent(self.maximum);
        !(is_absent(self.value) | is_value(sort, self.value))
            | !(low | is_minimum(sort, self.minimum))
            | !(high | is_maximum(sort, self.maximum))
            | (low != high)
    }

    // The value leaves the range, which has no bounds where it is absent.
    #[tactic(auto, unfolding(profile::specs::Rules::leaves))]
    pub fn leaves(self, sort: Sort) -> bool
        ensures { result ≡ leaves sort self.value self.minimum self.maximum }
    {
        !is_absent(self.minimum) & !in_range(sort, self.minimum, self.value, self.maximum)
    }
}

// The words at three positions of a record.
fn values_in(s: &[u8], section: u8, k: u16, at: Positions) -> Values
    ensures value { result.value ≡ field (sheet_of s.now) section k at.value }
    ensures minimum { result.minimum ≡ field (sheet_of s.now) section k at.minimum }
    ensures maximum { result.maximum ≡ field (sheet_of s.now) section k at.maximum }
{
    Values {
        value: field(s, section, k, at.value),
        minimum: field(s, section, k, at.minimum),
        maximum: field(s, section, k, at.maximum),
    }
}

// The words of an object and of a value set: each hands `values_in` the section and the positions that go together, which one function for
// both would ask its callers to bring.

// An object's own.
pub fn object_values(s: &[u8], o: u16, sort: Sort) -> Values
    ensures value { result.value ≡ field (sheet_of s.now) objects o (object_value sort) }
    ensures minimum { result.minimum ≡ field (sheet_of s.now) objects o (object_minimum sort) }
    ensures maximum { result.maximum ≡ field (sheet_of s.now) objects o (object_maximum sort) }
{
    values_in(s, OBJECTS, o, Positions::in_object(sort))
}

// A value set's own.
pub fn set_values(s: &[u8], v: u16, sort: Sort) -> Values
    ensures value { result.value ≡ field (sheet_of s.now) value_sets v (set_value sort) }
    ensures minimum { result.minimum ≡ field (sheet_of s.now) value_sets v (set_minimum sort) }
    ensures maximum { result.maximum ≡ field (sheet_of s.now) value_sets v (set_maximum sort) }
{
    values_in(s, VALUE_SETS, v, Positions::in_set(sort))
}

// Value set v is in the span of object o.
#[tactic(auto, unfolding(profile::specs::Relations::has_set))]
pub fn has_set(s: &[u8], o: u16, v: u16) -> bool
    ensures { result ≡ has_set (sheet_of s.now) o v }
{
    let span = Span::at(s, OBJECTS, o, SET_SPAN);
    (span.first <= v) & (u32::from(v) < span.end())
}

// An object's own value, 0 where it is absent.
#[tactic(auto, unfolding(profile::specs::Relations::own_value))]
pub fn own_value(s: &[u8], o: u16, sort: Sort) -> u16
    ensures { result ≡ own_value (sheet_of s.now) o sort }
{
    or_else(object_values(s, o, sort).value, 0)
}

// "For a set, the effective gain and offset are its own, else the object's, else 0": the value alone, for callers that ask no range, and by
// `effective_values` with its range.
#[tactic(auto, unfolding(profile::specs::Relations::effective_value))]
pub fn effective_value(s: &[u8], o: u16, v: u16, sort: Sort) -> u16
    ensures { result ≡ effective_value (sheet_of s.now) o v sort }
{
    or_else(set_values(s, v, sort).value, own_value(s, o, sort))
}

// "For a set, the effective gain and offset are its own, else the object's, else 0; its effective ranges are its own four words where own
// is 1, else the object's"
#[tactic(auto, unfolding(profile::specs::Relations::effective_minimum, profile::specs::Relations::effective_maximum))]
pub fn effective_values(s: &[u8], o: u16, v: u16, sort: Sort) -> Values
    ensures value { result.value ≡ effective_value (sheet_of s.now) o v sort }
    ensures minimum { result.minimum ≡ effective_minimum (sheet_of s.now) o v sort }
    ensures maximum { result.maximum ≡ effective_maximum (sheet_of s.now) o v sort }
{
    let value = effective_value(s, o, v, sort);
    let ranged = if field(s, VALUE_SETS, v, SET_OWN) == 1 {
        set_values(s, v, sort)
    } else {
        object_values(s, o, sort)
    };
    Values { value, ..ranged }
}
