// Rules 11 and 12: what names what, and how often. That a table is right is a premise, as lib.rt tells. Each function that reads a table is a
// `match` on what `look` tells, with a test of its own and a search of its own: one function for all of them, with those of groups.rt and of
// tables, would take the two as closures, and its calls would be no shorter.
ghost use Rattle.std.specs.Prelude.{eqb, ◌≡◌};
ghost use Rattle.profile.specs.Counting.{any, how_many};
ghost use Rattle.profile.specs.Relations.{has_set, lists, namings};
ghost use Rattle.profile.specs.Rules.{rule11, rule12};
ghost use Rattle.rules.specs.steps.Loops.{total_times};
ghost use Rattle.runs.specs.steps.Runs.{RepeatRight};
ghost use Rattle.sheet.specs.Fields.{content_list, contents, objects, programmes, value_sets};
ghost use Rattle.sheet.specs.Layout.{count};
ghost use Rattle.sheet.specs.Words.{sheet_of};
ghost use Rattle.tables.specs.steps.Right.{Listed, Named, Spanned};

use crate::repeats::repeats_by;
use profile::counting::{any, how_many, sum};
use relations::entries::{lists, times};
use relations::sets::has_set;
use sheet::fields::{
    CHILD_LIST, CONTENT_LIST, CONTENT_OBJECT, CONTENTS, OBJECTS, PROGRAMMES, VALUE_SETS,
};
use sheet::layout::{count, field};
use tables::reads::look;

// How often all lists at a position of the objects name x.
#[tactic(auto, unfolding(crate::specs::steps::Loops::total_times))]
pub fn total_times(s: &[u8], at: u8, x: u16) -> u32
    ensures { result ≡ total_times (sheet_of s.now) at x }
{
    sum(count(s, OBJECTS), |q| times(s, OBJECTS, q, at, x))
}

// How often contents and child lists name an object.
#[tactic(auto, unfolding(profile::specs::Relations::namings, crate::specs::steps::Loops::total_times))]
fn namings(s: &[u8], o: u16) -> u64
    ensures { result ≡ namings (sheet_of s.now) o }
{
    let tops = how_many(count(s, CONTENTS), |c| {
        field(s, CONTENTS, c, CONTENT_OBJECT) == o
    });
    u64::from(tops) + u64::from(total_times(s, CHILD_LIST, o))
}

// Whether contents and child lists name an object exactly once.
#[tactic(auto, using(tables::proofs::TableLaws::standing_read, tables::proofs::TableLaws::counted_one))]
fn named_once(s: &[u8], named: &[u16], o: u16) -> bool
    ensures { Named (sheet_of s.now) named.now → result ≡ eqb (namings (sheet_of s.now) o) 1 }
{
    match look(named, o) {
        Some(n) => n == 1,
        None => namings(s, o) == 1,
    }
}

// Whether a value set is in exactly one span.
#[tactic(auto, using(tables::proofs::TableLaws::standing_read, tables::proofs::TableLaws::counted_one))]
fn spanned_once(s: &[u8], spanned: &[u16], v: u16) -> bool
    ensures { Spanned (sheet_of s.now) spanned.now → result ≡ eqb (how_many (λ o. has_set (sheet_of s.now) o v) (count (sheet_of s.now) objects)) 1 }
{
    match look(spanned, v) {
        Some(n) => n == 1,
        None => how_many(count(s, OBJECTS), |o| has_set(s, o, v)) == 1,
    }
}

// Whether a content is in some programme.
fn is_listed(s: &[u8], listed: &[u16], c: u16) -> bool
    ensures { Listed (sheet_of s.now) listed.now → result ≡ any (λ p. lists (sheet_of s.now) programmes p content_list c) (count (sheet_of s.now) programmes) }
{
    match look(listed, c) {
        Some(n) => n != 0,
        None => any(count(s, PROGRAMMES), |p| {
            lists(s, PROGRAMMES, p, CONTENT_LIST, c)
        }),
    }
}

// It is lent the table of namings for an object, and that of spans for a value set.
#[tactic(auto, unfolding(profile::specs::Rules::rule11))]
pub fn rule11(s: &[u8], table: &[u16], section: u8, k: u16) -> bool
    ensures { (section ≡ objects → Named (sheet_of s.now) table.now) → (section ≡ value_sets → Spanned (sheet_of s.now) table.now) → result ≡ rule11 (sheet_of s.now) section k }
{
    match section {
        OBJECTS => !named_once(s, table, k),
        VALUE_SETS => !spanned_once(s, table, k),
        _ => false,
    }
}

// It is lent the table of repeats for a programme, and that of content lists for a content.
#[tactic(auto, unfolding(profile::specs::Rules::rule12))]
pub fn rule12(s: &[u8], table: &[u16], section: u8, k: u16) -> bool
    ensures { (section ≡ programmes → RepeatRight (sheet_of s.now) table.now) → (section ≡ contents → Listed (sheet_of s.now) table.now) → result ≡ rule12 (sheet_of s.now) section k }
{
    match section {
        PROGRAMMES => repeats_by(s, table, PROGRAMMES, k, CONTENT_LIST),
        CONTENTS => !is_listed(s, table, k),
        _ => false,
    }
}
