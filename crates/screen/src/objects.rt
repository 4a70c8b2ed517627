// An object: the rules that have it as their place, and its value sets. That a table is right is a premise, as lib.rt tells.
ghost use Rattle.std.specs.Prelude.{◌+◌, ◌<◌, ltb, get_or, length, false, true, ◌||◌, ◌≡◌};
ghost use Rattle.profile.specs.Limits.{exceeds};
ghost use Rattle.profile.specs.Relations.{pack_of};
ghost use Rattle.profile.specs.Rules.{rule15};
ghost use Rattle.screen.specs.steps.Objects.{children_broken, is_plain, object_broken, object_lists_broken, object_sort, object_values, offsets_broken, rest_kept, sort_broken, source_kept, tracks_broken, values_broken};
ghost use Rattle.sheet.specs.Fields.{objects};
ghost use Rattle.sheet.specs.Layout.{start};
ghost use Rattle.sheet.specs.Words.{sheet_of};
ghost use Rattle.tables.specs.steps.Right.{Named, ObjectsTabled, Tops};

use crate::ObjectValues;
use crate::complements::complements_break;
use crate::object_words::ObjectWords;
use crate::sets::{any_set_breaks, own_leaves, values_at};
use lists::entries::{any_bad_child, any_out_of_order};
use profile::limits::{CHILDREN_LIMIT, COMPLEMENTS_LIMIT, SPAN_LIMIT, exceeds};
use relations::objects::has_front_pack;
use relations::sets::{Positions, Values};
use rules::objects::rule15;
use sheet::fields::{
    CHILD_LIST, COMPLEMENT_LIST, INTERACT, NO_PACK, OBJECT_PACK, OBJECTS, PACK_CHANNELS, PACKS,
    REFERENCES, SET_SPAN, TRACK_LIST, VALUE_SETS,
};
use sheet::layout::{count, field};
use sheet::spans::Span;
use tables::ObjectTables;
use tables::reads::{look, top_by};
use values::Sort;

// Whether a list or span ends beyond a section of so many records, or is above a limit. Most have no entries, and no limit is looked up for
// them: without that, the check of `children of one object` takes 9.2 % more instructions, where the bar is 5 % (docs/DECISIONS.md, 135).
#[tactic(auto, using(lists::proofs::LimitLaws::no_excess))]
fn list_breaks(s: &[u8], many: u16, list: Span, column: u8) -> bool
    ensures { result ≡ (ltb many (list.first + list.count) || exceeds (sheet_of s.now) column list.count) }
{
    list.is_beyond(many) | (list.count != 0 && exceeds(s, column, u64::from(list.count)))
}

impl ObjectValues {
    // The values of a sort: rules 6 and 18, and 16 but for the sets.
    #[tactic(auto, unfolding(crate::specs::steps::Objects::sort_broken))]
    fn sort_breaks(self, sort: Sort, values: Values) -> bool
        ensures { result ≡ sort_broken sort self values }
    {
        values.bad_words(sort)
            | (self.interact == 0) & values.has_range()
            | own_leaves(sort, values)
    }

    // The offset: rules 6, 17 and 18, and 16 but for the sets. Most have none. It alone needs a pack with front 1, so that gains have no
    // function like it.
    #[tactic(auto, unfolding(crate::specs::steps::Objects::offsets_broken), using(crate::proofs::ObjectLaws::no_offset, crate::proofs::ObjectLaws::some_offset))]
    fn offsets_break(self) -> bool
        ensures { result ≡ offsets_broken self }
    {
        let offsets = self.offsets;
        if offsets.none_present() {
            return false;
        }
        self.sort_breaks(Sort::Offsets, offsets) | !self.front
    }

    // Rules 6, 17 and 18, and 16 but for the sets.
    #[tactic(auto, unfolding(crate::specs::steps::Objects::values_broken))]
    fn breaks(self) -> bool
        ensures { result ≡ values_broken self }
    {
        (1 < self.interact) | self.sort_breaks(Sort::Gains, self.gains) | self.offsets_break()
    }
}

impl<'a> ObjectWords<'a> {
    // Whether a list or the span may break rule 4 or 8.
    fn lists_break(&self) -> bool
        ensures { result ≡ false → object_lists_broken (sheet_of self.now.s.now) self.now.o ≡ false }
    {
        let s = self.s;
        let many = count(s, REFERENCES);
        if self.span(TRACK_LIST).is_beyond(many) {
            return true;
        }
        if list_breaks(s, many, self.span(CHILD_LIST), CHILDREN_LIMIT) {
            return true;
        }
        if list_breaks(s, many, self.span(COMPLEMENT_LIST), COMPLEMENTS_LIMIT) {
            return true;
        }
        list_breaks(s, count(s, VALUE_SETS), self.span(SET_SPAN), SPAN_LIMIT)
    }

    // The value of a sort with its range.
    fn values_of(&self, sort: Sort) -> Values
        ensures { result ≡ object_sort (sheet_of self.now.s.now) sort (start (sheet_of self.now.s.now) objects self.now.o) }
    {
        values_at(self.s, self.at, Positions::in_object(sort))
    }

    // Its pack.
    #[tactic(auto, unfolding(profile::specs::Relations::pack_of))]
    fn pack(&self) -> u16
        ensures { result ≡ pack_of (sheet_of self.now.s.now) self.now.o }
    {
        self.word(OBJECT_PACK)
    }

    // Its values.
    #[tactic(auto, unfolding(crate::specs::steps::Objects::object_values))]
    fn values(&self) -> ObjectValues
        ensures { result ≡ object_values (sheet_of self.now.s.now) self.now.o }
    {
        ObjectValues {
            interact: self.word(INTERACT),
            front: has_front_pack(self.s, self.o),
            gains: self.values_of(Sort::Gains),
            offsets: self.values_of(Sort::Offsets),
        }
    }

    // Without a pack: it has children and no tracks, and each child is an object with a pack of kind 3.
    #[tactic(auto, unfolding(crate::specs::steps::Objects::children_broken))]
    fn children_break(&self) -> bool
        ensures { result ≡ children_broken (sheet_of self.now.s.now) self.now.o }
    {
        let children = self.span(CHILD_LIST);
        (children.count == 0)
            | (self.number(TRACK_LIST) != 0)
            | any_bad_child(self.s, children.entries(self.s), count(self.s, OBJECTS))
    }

    // With a pack: it has no children, and its tracks are the pack's channels in their order.
    #[tactic(auto, unfolding(crate::specs::steps::Objects::tracks_broken))]
    fn tracks_break(&self, pack: u16) -> bool
        ensures { result ≡ tracks_broken (sheet_of self.now.s.now) self.now.o pack }
    {
        let tracks = self.span(TRACK_LIST);
        (0 < self.number(CHILD_LIST))
            | (count(self.s, PACKS) <= pack)
            | (tracks.count != field(self.s, PACKS, pack, PACK_CHANNELS))
            | any_out_of_order(self.s, tracks.entries(self.s), pack)
    }

    // Whether it may break rule 13 or 14, or rule 5 by its pack, a track or a child.
    fn source_breaks(&self) -> bool
        ensures { result ≡ false → source_kept (sheet_of self.now.s.now) self.now.o }
    {
        let pack = self.pack();
        if pack == NO_PACK {
            return self.children_break();
        }
        self.tracks_break(pack)
    }

    // Whether it has no complements, no sets, interact 0 and no gain, offset or range, as most children and backgrounds: it keeps rules 15
    // to 20.
    #[tactic(auto, unfolding(crate::specs::steps::Objects::is_plain))]
    fn is_plain(&self) -> bool
        ensures { result ≡ is_plain (sheet_of self.now.s.now) self.now.o }
    {
        (self.number(COMPLEMENT_LIST) == 0)
            & (self.number(SET_SPAN) == 0)
            & (self.word(INTERACT) == 0)
            & self.values_of(Sort::Gains).none_present()
            & self.values_of(Sort::Offsets).none_present()
    }

    // Whether an object that is not plain may break rule 6, one of 15 to 20, or rule 5 by a complement; or a set of its one.
    fn values_or_complements_break(&self, tables: &ObjectTables) -> bool
        ensures { result ≡ false → ObjectsTabled (sheet_of self.now.s.now) tables.now → rest_kept (sheet_of self.now.s.now) self.now.o }
    {
        let values = self.values();
        values.breaks()
            | any_set_breaks(self.s, self.span(SET_SPAN), values)
            | complements_break(self.s, tables, self.o)
            | child_breaks(self.s, tables.tops, self.o)
    }
}

// Whether an object that isn't top may break rule 15.
#[tactic(auto, unfolding(profile::specs::Rules::rule15))]
fn child_breaks(s: &[u8], tops: &[u16], o: u16) -> bool
    ensures { result ≡ false → Tops (sheet_of s.now) tops.now → rule15 (sheet_of s.now) objects o ≡ false }
{
    if top_by(s, tops, o) {
        return false;
    }
    rule15(s, tops, OBJECTS, o)
}

// Whether contents and child lists name an object once, as far as the table tells: rule 11.
fn named_once(named: &[u16], o: u16) -> bool
    ensures { result ≡ true → (o < length named.now) × (get_or named.now o 0 ≡ 1) }
{
    look(named, o) == Some(1)
}

// Whether an object, or a set of its, may break a rule.
pub fn object_breaks(s: &[u8], named: &[u16], tables: &ObjectTables, o: u16) -> bool
    ensures { result ≡ false → Named (sheet_of s.now) named.now → ObjectsTabled (sheet_of s.now) tables.now → object_broken (sheet_of s.now) o ≡ false }
{
    let object = ObjectWords::new(s, o);
    if object.is_cut() {
        return true;
    }
    if object.lists_break() {
        return true;
    }
    if object.source_breaks() {
        return true;
    }
    if !named_once(named, o) {
        return true;
    }
    if object.is_plain() {
        return false;
    }
    object.values_or_complements_break(tables)
}
