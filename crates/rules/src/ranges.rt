// Rules 17 and 18: offsets and their packs, values and their ranges. That the table is right is a premise, as lib.rt tells.
ghost use Rattle.std.specs.Prelude.{◌≡◌};
ghost use Rattle.profile.specs.Rules.{object_leaves, rule17, rule18, set_leaves};
ghost use Rattle.sheet.specs.Words.{sheet_of};
ghost use Rattle.tables.specs.steps.Right.{Owners};

use relations::objects::has_front_pack;
use relations::sets::{Values, effective_values, object_values, own_value, set_values};
use sheet::fields::{OBJECTS, VALUE_SETS};
use tables::reads::owner_by;
use values::Sort;
use values::values::is_absent;

#[tactic(auto, unfolding(profile::specs::Rules::rule17, profile::specs::Rules::object_range, profile::specs::Rules::set_range))]
pub fn rule17(s: &[u8], owners: &[u16], section: u8, k: u16) -> bool
    ensures { Owners (sheet_of s.now) owners.now → result ≡ rule17 (sheet_of s.now) section k }
{
    match section {
        OBJECTS => !object_values(s, k, Sort::Offsets).none_present() & !has_front_pack(s, k),
        VALUE_SETS => {
            !set_values(s, k, Sort::Offsets).none_present()
                & !has_front_pack(s, owner_by(s, owners, k))
        }
        _ => false,
    }
}

// An object's own value leaves its range. This function and the next read the words of an object and of a set by their records;
// `own_leaves` and `value_leaves` of screen have the words, and the definitions here and there are of the one and of the other.
#[tactic(auto, unfolding(profile::specs::Rules::object_leaves))]
fn object_leaves(s: &[u8], o: u16, sort: Sort) -> bool
    ensures { result ≡ object_leaves (sheet_of s.now) o sort }
{
    let value = own_value(s, o, sort);
    let object = object_values(s, o, sort);
    Values { value, ..object }.leaves(sort)
}

// Set v of object o: its effective value leaves the effective range, or its own one the object's range. The object, the set and the sort are
// the parameters of the definition, and each function here reads other words by them.
#[tactic(auto, unfolding(profile::specs::Rules::set_leaves))]
fn set_leaves(s: &[u8], o: u16, v: u16, sort: Sort) -> bool
    ensures { result ≡ set_leaves (sheet_of s.now) o v sort }
{
    let own = set_values(s, v, sort).value;
    let object = object_values(s, o, sort);
    let ranged = Values {
        value: own,
        ..object
    };
    effective_values(s, o, v, sort).leaves(sort) | !is_absent(own) & ranged.leaves(sort)
}

#[tactic(auto, unfolding(profile::specs::Rules::rule18))]
pub fn rule18(s: &[u8], owners: &[u16], section: u8, k: u16) -> bool
    ensures { Owners (sheet_of s.now) owners.now → result ≡ rule18 (sheet_of s.now) section k }
{
    match section {
        OBJECTS => object_leaves(s, k, Sort::Gains) | object_leaves(s, k, Sort::Offsets),
        VALUE_SETS => {
            let o = owner_by(s, owners, k);
            set_leaves(s, o, k, Sort::Gains) | set_leaves(s, o, k, Sort::Offsets)
        }
        _ => false,
    }
}
