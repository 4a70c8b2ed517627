// Rules 19 to 21: complementary groups. That a table is right is a premise, as lib.rt tells.
ghost use Rattle.std.specs.Prelude.{ltb, not, ◌&&◌, eqb, ◌≡◌};
ghost use Rattle.profile.specs.Relations.{included, leader, wholly_included};
ghost use Rattle.profile.specs.Rules.{bad_complement, rule19, rule20, rule21};
ghost use Rattle.rules.specs.steps.Loops.{splits, total_times};
ghost use Rattle.sheet.specs.Fields.{complement_list};
ghost use Rattle.sheet.specs.Words.{sheet_of};
ghost use Rattle.tables.specs.steps.Right.{Complemented, Included, ObjectsTabled};

use crate::differences::differs;
use crate::naming::total_times;
use profile::counting::any;
use relations::entries::any_entry;
use relations::groups::members;
use relations::objects::leader;
use sheet::fields::{COMPLEMENT_LIST, OBJECTS};
use sheet::layout::count;
use tables::ObjectTables;
use tables::members::members_passing;
use tables::reads::{included_by, look, top_by};

// Whether complement lists name an object more than once.
fn named_more(s: &[u8], complements: &[u16], q: u16) -> bool
    ensures { Complemented (sheet_of s.now) complements.now → result ≡ ltb 1 (total_times (sheet_of s.now) complement_list q) }
{
    match look(complements, q) {
        Some(n) => 1 < n,
        None => 1 < total_times(s, COMPLEMENT_LIST, q),
    }
}

// A complement that isn't top, that itself lists some, or that complement lists name more than once.
#[tactic(auto, unfolding(profile::specs::Rules::bad_complement, crate::specs::steps::Loops::total_times))]
pub fn bad_complement(s: &[u8], tables: &ObjectTables, q: u16) -> bool
    ensures { ObjectsTabled (sheet_of s.now) tables.now → result ≡ bad_complement (sheet_of s.now) q }
{
    !top_by(s, tables.tops, q) | leader(s, q) | named_more(s, tables.complements, q)
}

pub fn rule19(s: &[u8], tables: &ObjectTables, section: u8, o: u16) -> bool
    ensures { ObjectsTabled (sheet_of s.now) tables.now → result ≡ rule19 (sheet_of s.now) section o }
{
    any_entry(s, OBJECTS, o, COMPLEMENT_LIST, |q| {
        bad_complement(s, tables, q)
    })
}

pub fn rule20(s: &[u8], section: u8, o: u16) -> bool
    ensures { result ≡ rule20 (sheet_of s.now) section o }
{
    any_entry(s, OBJECTS, o, COMPLEMENT_LIST, |q| differs(s, o, q))
}

// The programme includes some of a leader's group, but neither one member nor all.
#[tactic(auto, unfolding(profile::specs::Relations::wholly_included, profile::specs::Relations::included, tables::specs::steps::Members::how_many_members))]
fn splits(s: &[u8], p: u16, marks: &[u16], l: u16) -> bool
    ensures { Included (sheet_of s.now) p marks.now → result ≡ splits (sheet_of s.now) p l }
{
    if !leader(s, l) {
        return false;
    }
    let n = members_passing(s, l, |o| included_by(s, p, marks, o));
    (n != 0) & (n != 1) & (n != members(s, l))
}

#[tactic(auto, unfolding(profile::specs::Rules::rule21))]
pub fn rule21(s: &[u8], marks: &[u16], section: u8, p: u16) -> bool
    ensures { Included (sheet_of s.now) p marks.now → result ≡ rule21 (sheet_of s.now) section p }
{
    any(count(s, OBJECTS), |l| splits(s, p, marks, l))
}
