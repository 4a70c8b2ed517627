// Rules 23 and 24: what the whole sheet adds up to. That a table is right is a premise, as lib.rt tells.
ghost use Rattle.std.specs.Prelude.{◌≡◌};
ghost use Rattle.profile.specs.Rules.{rule23, rule24};
ghost use Rattle.sheet.specs.Words.{sheet_of};
ghost use Rattle.tables.specs.steps.Right.{ObjectsTabled};

use profile::limits::{COUNTED_LIMIT, GROUPS_LIMIT, UNITS_LIMIT, exceeds};
use relations::records::groups;
use tables::ObjectTables;

#[tactic(auto, unfolding(profile::specs::Rules::rule23))]
pub fn rule23(s: &[u8], tables: &ObjectTables, section: u8, k: u16) -> bool
    ensures { ObjectsTabled (sheet_of s.now) tables.now → result ≡ rule23 (sheet_of s.now) section k }
{
    exceeds(s, GROUPS_LIMIT, u64::from(groups(s)))
        | exceeds(s, UNITS_LIMIT, u64::from(tables.units(s)))
}

#[tactic(auto, unfolding(profile::specs::Rules::rule24))]
pub fn rule24(s: &[u8], tables: &ObjectTables, section: u8, k: u16) -> bool
    ensures { ObjectsTabled (sheet_of s.now) tables.now → result ≡ rule24 (sheet_of s.now) section k }
{
    exceeds(s, COUNTED_LIMIT, tables.counted_tracks(s))
}
