// Relations read from a table, or found by their own search where the table ends before: with an empty table, always. That the table is
// right (`Tops`, `Complemented`, `Leaders`, `Owners`, `Included`, `NamedSets`) is a premise in the contracts of one table: a `requires`, or
// a table type with the fact, is narrower than what callers hand in today, which may not be asked of them. Each is a `match` on `look`; one
// for all would take the search and what stands there as closures, and be no shorter.
ghost use Rattle.std.specs.Prelude.{ℕ, ◌<◌, Some, None, cond, eqb, ltb, get_or, length, not, true, ◌≡◌};
ghost use Rattle.profile.specs.Counting.{any};
ghost use Rattle.profile.specs.Relations.{complement, includes, leader_of, lone, names_set, owner, top};
ghost use Rattle.sheet.specs.Words.{sheet_of};
ghost use Rattle.tables.specs.steps.Right.{Complemented, Included, Leaders, NamedSets, ObjectsTabled, Owners, GroupsTabled, Tops, told};

use crate::{GroupTables, ObjectTables};
use relations::groups::leader_of;
use relations::objects::leader;
use relations::programmes::{includes, names_set};
use relations::records::{complement, owner, top};
use sheet::fields::{OBJECTS, SET_SPAN};
use sheet::layout::count;
use sheet::spans::Span;

// What stands at a place that the table has.
pub fn look(table: &[u16], x: u16) -> Option<u16>
    ensures { result ≡ cond (ltb x (length table.now)) (Some (get_or table.now x 0)) None }
{
    table.get(usize::from(x)).copied()
}

// "A top object is one that a content names."
#[tactic(auto, using(crate::proofs::TableLaws::standing_read, crate::proofs::TableLaws::top_counted))]
pub fn top_by(s: &[u8], tops: &[u16], o: u16) -> bool
    ensures { Tops (sheet_of s.now) tops.now → result ≡ top (sheet_of s.now) o }
{
    match look(tops, o) {
        Some(count) => count != 0,
        None => top(s, o),
    }
}

// Some complement list names the object.
#[tactic(auto, using(crate::proofs::TableLaws::standing_read, crate::proofs::TableLaws::complement_counted))]
pub fn complement_by(s: &[u8], complements: &[u16], o: u16) -> bool
    ensures { Complemented (sheet_of s.now) complements.now → result ≡ complement (sheet_of s.now) o }
{
    match look(complements, o) {
        Some(n) => n != 0,
        None => complement(s, o),
    }
}

impl<'a> ObjectTables<'a> {
    // A top object in no group.
    #[tactic(auto, unfolding(profile::specs::Relations::lone))]
    pub fn lone_by(&self, s: &[u8], o: u16) -> bool
        ensures { ObjectsTabled (sheet_of s.now) self.now → result ≡ lone (sheet_of s.now) o }
    {
        top_by(s, self.tops, o) & !leader(s, o) & !complement_by(s, self.complements, o)
    }
}

// What stands for a number: one more than it, or 0 for none. The tables are fixed memory of words, and no `Option` stands in a word.
#[tactic(auto, using(crate::proofs::TableLaws::told_by))]
fn told(d: u16, c: u16) -> u16
    ensures { result ≡ told d c }
{
    c.checked_sub(1).unwrap_or(d)
}

// The leader of an object's group.
#[tactic(auto, using(crate::proofs::TableLaws::standing_read, crate::proofs::TableLaws::leader_told))]
pub fn leader_by(s: &[u8], leaders: &[u16], o: u16) -> u16
    ensures { Leaders (sheet_of s.now) leaders.now → result ≡ leader_of (sheet_of s.now) o }
{
    match look(leaders, o) {
        Some(c) => told(o, c),
        None => leader_of(s, o),
    }
}

// The object whose set v is, the number of objects where there is none.
#[tactic(auto, using(crate::proofs::TableLaws::standing_read, crate::proofs::TableLaws::owner_told))]
pub fn owner_by(s: &[u8], owners: &[u16], v: u16) -> u16
    ensures { Owners (sheet_of s.now) owners.now → result ≡ owner (sheet_of s.now) v }
{
    match look(owners, v) {
        Some(c) => told(count(s, OBJECTS), c),
        None => owner(s, v),
    }
}

impl<'a> GroupTables<'a> {
    // The leader of the group of the object whose set v is.
    pub fn leader_of_set(&self, s: &[u8], v: u16) -> u16
        ensures { GroupsTabled (sheet_of s.now) self.now → result ≡ leader_of (sheet_of s.now) (owner (sheet_of s.now) v) }
    {
        leader_by(s, self.leaders, owner_by(s, self.owners, v))
    }
}

// "A programme includes the top objects of its contents". The programme and the table of it stand apart, here and in `names_set_by`: the
// rules are asked for a record by its number, and lend their tables beside it, one of them local to rule 22; the listener has its table in
// `ProgrammeTables`, beside the leaders. A struct of the two would be made anew in each function that calls these, for one or two calls.
#[tactic(auto, using(crate::proofs::TableLaws::standing_read, crate::proofs::TableLaws::flag))]
pub fn included_by(s: &[u8], p: u16, marks: &[u16], o: u16) -> bool
    ensures { Included (sheet_of s.now) p marks.now → result ≡ includes (sheet_of s.now) p o }
{
    match look(marks, o) {
        Some(m) => m != 0,
        None => includes(s, p, o),
    }
}

// Whether some place is marked. By std's `any`, and `all_once` by `all`, tried and proved, the check of the benchmark's sets of one object
// takes 5.9 % more instructions, where the bar is 5 % (docs/DECISIONS.md, 135): they end at the first place, and this has no branch.
fn any_marked(places: &[u16]) -> bool
    ensures { result ≡ any (λ k. not (eqb (get_or places.now k 0) 0)) (length places.now) }
{
    let mut found = false;
    for m in places {
        found |= *m != 0;
    }
    found
}

// The programme names a set for the object.
pub fn names_set_by(s: &[u8], p: u16, sets: &[u16], o: u16) -> bool
    ensures { NamedSets (sheet_of s.now) p sets.now → result ≡ names_set (sheet_of s.now) p o }
{
    let span = Span::at(s, OBJECTS, o, SET_SPAN);
    let from = usize::from(span.first);
    match sets.get(from..from + usize::from(span.count)) {
        Some(places) => any_marked(places),
        None => names_set(s, p, o),
    }
}

// Whether the first n places of a table have 1. A table may have more places than the section has records, so that n stands beside it. The
// loop has no branch, as above.
pub fn all_once(table: &[u16], n: u16) -> bool
    ensures { result ≡ true → (x : ℕ) → x < n → (x < length table.now) × (get_or table.now x 0 ≡ 1) }
{
    let Some(places) = table.get(..usize::from(n)) else {
        return false;
    };
    let mut once = true;
    for c in places {
        once &= *c == 1;
    }
    once
}
