// Rule 22: the sets that a programme names. That a table is right is a premise, as lib.rt tells.
ghost use Rattle.std.specs.Prelude.{◌≡◌};
ghost use Rattle.profile.specs.Rules.{rule22};
ghost use Rattle.rules.specs.steps.Loops.{partly_set};
ghost use Rattle.sheet.specs.Words.{sheet_of};
ghost use Rattle.tables.specs.steps.Right.{Included, NamedSets, GroupsTabled};

use crate::repeats::{differ_in_group, one_owner};
use profile::counting::any;
use relations::entries::any_entry;
use relations::groups::members;
use relations::objects::leader;
use sheet::fields::{OBJECTS, PROGRAMMES, SET_LIST};
use sheet::layout::count;
use tables::GroupTables;
use tables::marks::mark_named_sets;
use tables::members::members_passing;
use tables::reads::{included_by, names_set_by, owner_by};

// The programme includes the whole group of a leader, and names sets for some of it, but not all.
#[tactic(auto, unfolding(profile::specs::Relations::wholly_included, profile::specs::Relations::included, profile::specs::Rules::sets_named, tables::specs::steps::Members::how_many_members))]
fn partly_set(s: &[u8], p: u16, marks: &[u16], sets: &[u16], l: u16) -> bool
    ensures { Included (sheet_of s.now) p marks.now → NamedSets (sheet_of s.now) p sets.now → result ≡ partly_set (sheet_of s.now) p l }
{
    if !leader(s, l) {
        return false;
    }
    let all = members(s, l);
    if members_passing(s, l, |o| included_by(s, p, marks, o)) == all {
        let m = members_passing(s, l, |o| names_set_by(s, p, sets, o));
        (m != 0) & (m != all)
    } else {
        false
    }
}

// It is kept apart, since its tables would else stand in the frame of what calls it for each record (docs/SPEED.md).
#[inline(never)]
pub fn rule22(s: &[u8], tables: &GroupTables, marks: &[u16], section: u8, p: u16) -> bool
    ensures { GroupsTabled (sheet_of s.now) tables.now → Included (sheet_of s.now) p marks.now → result ≡ rule22 (sheet_of s.now) section p }
{
    if any_entry(s, PROGRAMMES, p, SET_LIST, |v| {
        !included_by(s, p, marks, owner_by(s, tables.owners, v))
    }) {
        return true;
    }
    if one_owner(s, tables.owners, p) {
        return true;
    }
    let mut sets: [u16; 4680] = [0; 4680];
    mark_named_sets(s, p, &mut sets);
    any(count(s, OBJECTS), |l| partly_set(s, p, marks, &sets, l)) | differ_in_group(s, tables, p)
}
