// Rules 13 to 16: what an object has and may have. That a table is right is a premise, as lib.rt tells.
ghost use Rattle.std.specs.Prelude.{◌≡◌};
ghost use Rattle.profile.specs.Rules.{rule13, rule14, rule15, rule16};
ghost use Rattle.rules.specs.steps.Loops.{own_set};
ghost use Rattle.runs.specs.steps.Runs.{OrdinalRight, StrayRight};
ghost use Rattle.sheet.specs.Words.{sheet_of};
ghost use Rattle.tables.specs.steps.Right.{Tops};

use crate::repeats::bad_ordinals;
use crate::words::object_range;
use profile::counting::any;
use relations::entries::any_entry;
use relations::objects::{channels, has_children, has_objects_pack, has_pack, leader, pack_of};
use relations::sets::object_values;
use runs::reads::{inside, odd_tracks};
use sheet::fields::{
    CHILD_LIST, INTERACT, OBJECTS, SET_OWN, SET_SPAN, TRACK_LIST, TRACK_PACK, TRACKS, VALUE_SETS,
};
use sheet::layout::{field, number, wide_field};
use sheet::spans::Span;
use tables::reads::top_by;
use values::Sort;

pub fn rule13(s: &[u8], section: u8, o: u16) -> bool
    ensures { result ≡ rule13 (sheet_of s.now) section o }
{
    let pack = has_pack(s, o);
    let children = has_children(s, o);
    pack & children
        | !pack & !children
        | any_entry(s, OBJECTS, o, CHILD_LIST, |e| !has_objects_pack(s, e))
}

// It is lent a table of the tracks that don't go on with the pack, and one of the ordinals that repeat.
pub fn rule14(s: &[u8], next: &[u16], again: &[u16], section: u8, o: u16) -> bool
    ensures { StrayRight (sheet_of s.now) next.now → OrdinalRight (sheet_of s.now) again.now → result ≡ rule14 (sheet_of s.now) section o }
{
    let tracks = Span::at(s, OBJECTS, o, TRACK_LIST);
    if tracks.count != channels(s, o) {
        return true;
    }
    if (0 < tracks.count) & inside(s, next, tracks) & inside(s, again, tracks) {
        return odd_tracks(s, next, again, tracks, pack_of(s, o));
    }
    let pack = pack_of(s, o);
    any_entry(s, OBJECTS, o, TRACK_LIST, |t| {
        field(s, TRACKS, t, TRACK_PACK) != pack
    }) | bad_ordinals(s, o)
}

#[tactic(auto, unfolding(profile::specs::Rules::rule15, profile::specs::Rules::object_range))]
pub fn rule15(s: &[u8], tops: &[u16], section: u8, o: u16) -> bool
    ensures { Tops (sheet_of s.now) tops.now → result ≡ rule15 (sheet_of s.now) section o }
{
    !top_by(s, tops, o)
        & (leader(s, o)
            | (field(s, OBJECTS, o, INTERACT) == 1)
            | (0 < number(s, OBJECTS, o, SET_SPAN))
            | !object_values(s, o, Sort::Gains).none_present()
            | !object_values(s, o, Sort::Offsets).none_present())
}

// Whether some set of the object has own 1.
#[tactic(auto, unfolding(crate::specs::steps::Loops::own_set))]
pub fn own_set(s: &[u8], o: u16) -> bool
    ensures { result ≡ own_set (sheet_of s.now) o }
{
    let span = Span::at(s, OBJECTS, o, SET_SPAN);
    any(span.count, |i| {
        wide_field(s, VALUE_SETS, u32::from(span.first) + u32::from(i), SET_OWN) == 1
    })
}

#[tactic(auto, unfolding(profile::specs::Rules::rule16, crate::specs::steps::Loops::own_set))]
pub fn rule16(s: &[u8], section: u8, o: u16) -> bool
    ensures { result ≡ rule16 (sheet_of s.now) section o }
{
    (field(s, OBJECTS, o, INTERACT) == 0)
        & (object_range(s, o, Sort::Gains) | object_range(s, o, Sort::Offsets) | own_set(s, o))
}
