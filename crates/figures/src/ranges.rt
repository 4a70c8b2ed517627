// Rule 18: "the value, then the bound". An object, its value set and a sort are three parameters, as in the definitions that the contracts
// cite: words are read by the object alone and by the set alone, so a struct of the three would be taken apart wherever one is read.
ghost use Rattle.std.specs.Prelude.{◌≡◌};
ghost use Rattle.figures.specs.Clashes.{in_object, in_set, word_at};
ghost use Rattle.figures.specs.Ranges.{bound_place, effective_clash, effective_place, object_clash, object_clashes, own_clash, range_clash, range_clashes, range_place, set_clashes};
ghost use Rattle.profile.specs.Relations.{object_maximum, object_minimum, object_value, set_maximum, set_minimum, set_value};
ghost use Rattle.sheet.specs.Words.{sheet_of};

use crate::{Clash, WordPlace};
use relations::records::owner;
use relations::sets::{Positions, Values};
use sheet::fields::{OBJECTS, SET_OWN, VALUE_SETS};
use sheet::layout::field;
use values::Sort;
use values::signed::signed;
use values::values::is_absent;

// Where a value stands, and where the ends of the range do that it is held against. The fields have the names of those of `Positions` and
// `Values` (relations), but each has methods that make no sense of the others.
#[derive(Clone, Copy)]
struct RangePlaces {
    value: WordPlace,
    minimum: WordPlace,
    maximum: WordPlace,
}

impl RangePlaces {
    // An object's own value and its range. Two functions that differ in two names, `in_object` and `in_set` of the
    // definitions: one for both would take the positions and a closure for the places, and leave all but the three lines to its callers.
    fn of_object(o: u16, sort: Sort) -> RangePlaces
        ensures value { result.value ≡ in_object o (object_value sort) }
        ensures minimum { result.minimum ≡ in_object o (object_minimum sort) }
        ensures maximum { result.maximum ≡ in_object o (object_maximum sort) }
    {
        let at = Positions::in_object(sort);
        RangePlaces {
            value: WordPlace::in_object(o, at.value),
            minimum: WordPlace::in_object(o, at.minimum),
            maximum: WordPlace::in_object(o, at.maximum),
        }
    }

    // A value set's own words.
    fn of_set(v: u16, sort: Sort) -> RangePlaces
        ensures value { result.value ≡ in_set v (set_value sort) }
        ensures minimum { result.minimum ≡ in_set v (set_minimum sort) }
        ensures maximum { result.maximum ≡ in_set v (set_maximum sort) }
    {
        let at = Positions::in_set(sort);
        RangePlaces {
            value: WordPlace::in_set(v, at.value),
            minimum: WordPlace::in_set(v, at.minimum),
            maximum: WordPlace::in_set(v, at.maximum),
        }
    }

    // The effective value of set v of object o and the effective range.
    #[tactic(auto, unfolding(crate::specs::Ranges::effective_place, crate::specs::Ranges::range_place))]
    fn effective(s: &[u8], o: u16, v: u16, sort: Sort) -> RangePlaces
        ensures value { result.value ≡ effective_place (sheet_of s.now) o v sort }
        ensures minimum { result.minimum ≡ range_place (sheet_of s.now) o v (set_minimum sort) (object_minimum sort) }
        ensures maximum { result.maximum ≡ range_place (sheet_of s.now) o v (set_maximum sort) (object_maximum sort) }
    {
        let of_object = RangePlaces::of_object(o, sort);
        let of_set = RangePlaces::of_set(v, sort);
        let value = if is_absent(of_set.value.word(s)) {
            of_object.value
        } else {
            of_set.value
        };
        let ranged = if field(s, VALUE_SETS, v, SET_OWN) == 1 {
            of_set
        } else {
            of_object
        };
        RangePlaces { value, ..ranged }
    }

    // The words that stand there.
    fn words(self, s: &[u8]) -> Values
        ensures value { result.value ≡ word_at (sheet_of s.now) self.value }
        ensures minimum { result.minimum ≡ word_at (sheet_of s.now) self.minimum }
        ensures maximum { result.maximum ≡ word_at (sheet_of s.now) self.maximum }
    {
        Values {
            value: self.value.word(s),
            minimum: self.minimum.word(s),
            maximum: self.maximum.word(s),
        }
    }

    // The bound that a value outside its range is told with. The word of silence is that of the least number, so one order serves both
    // sorts.
    #[tactic(auto, using(crate::proofs::OrderLaws::below_words), unfolding(crate::specs::Ranges::bound_place))]
    fn bound(self, s: &[u8], sort: Sort) -> WordPlace
        ensures { result ≡ bound_place (sheet_of s.now) sort self.value self.minimum self.maximum }
    {
        if signed(self.value.word(s)) < signed(self.minimum.word(s)) {
            self.minimum
        } else {
            self.maximum
        }
    }

    // The value against the range.
    #[tactic(auto, unfolding(crate::specs::Ranges::range_clash))]
    fn clash(self, s: &[u8], sort: Sort) -> Option<Clash>
        ensures { result ≡ range_clash (sheet_of s.now) sort self.value self.minimum self.maximum }
    {
        let words = self.words(s);
        let outside = !is_absent(words.value) & words.leaves(sort);
        let first = self.value.told(s);
        let second = self.bound(s, sort).told(s);
        outside.then_some(Clash { first, second })
    }
}

// An object's own value against its range.
#[tactic(auto, unfolding(crate::specs::Ranges::object_clash))]
fn object_clash(s: &[u8], o: u16, sort: Sort) -> Option<Clash>
    ensures { result ≡ object_clash (sheet_of s.now) o sort }
{
    RangePlaces::of_object(o, sort).clash(s, sort)
}

// The effective value against the effective range.
#[tactic(auto, unfolding(crate::specs::Ranges::effective_clash))]
fn effective_clash(s: &[u8], o: u16, v: u16, sort: Sort) -> Option<Clash>
    ensures { result ≡ effective_clash (sheet_of s.now) o v sort }
{
    RangePlaces::effective(s, o, v, sort).clash(s, sort)
}

// The set's own value against the object's range.
#[tactic(auto, unfolding(crate::specs::Ranges::own_clash))]
fn own_clash(s: &[u8], o: u16, v: u16, sort: Sort) -> Option<Clash>
    ensures { result ≡ own_clash (sheet_of s.now) o v sort }
{
    let places = RangePlaces {
        value: RangePlaces::of_set(v, sort).value,
        ..RangePlaces::of_object(o, sort)
    };
    places.clash(s, sort)
}

// The first clash of an object: "gain before offset".
#[tactic(auto, unfolding(crate::specs::Ranges::object_clashes, crate::specs::Clashes::earlier))]
fn object_clashes(s: &[u8], o: u16) -> Option<Clash>
    ensures { result ≡ object_clashes (sheet_of s.now) o }
{
    object_clash(s, o, Sort::Gains).or(object_clash(s, o, Sort::Offsets))
}

// The first clash of set v of object o: "in the rule's order, then gain before offset".
#[tactic(auto, unfolding(crate::specs::Ranges::set_clashes, crate::specs::Clashes::earlier))]
fn set_clashes(s: &[u8], o: u16, v: u16) -> Option<Clash>
    ensures { result ≡ set_clashes (sheet_of s.now) o v }
{
    let effective = effective_clash(s, o, v, Sort::Gains).or(effective_clash(
        s,
        o,
        v,
        Sort::Offsets,
    ));
    let own = own_clash(s, o, v, Sort::Gains).or(own_clash(s, o, v, Sort::Offsets));
    effective.or(own)
}

// The first clash of a record that breaks rule 18. The section comes as the verdict has it: it is one of two where the rule is broken, but
// the contract holds of every number.
#[tactic(auto, unfolding(crate::specs::Ranges::range_clashes))]
pub fn range_clashes(s: &[u8], section: u32, k: u16) -> Option<Clash>
    ensures { result ≡ range_clashes (sheet_of s.now) section k }
{
    if section == u32::from(OBJECTS) {
        object_clashes(s, k)
    } else {
        set_clashes(s, owner(s, k), k)
    }
}
