// What the whole sheet adds up to: rules 23 and 24. One pass over the objects adds the three numbers up; the rules find them by `groups`,
// `units` and `counted_tracks`, which go over the objects four times. That a table is right is a premise, as lib.rt tells.
ghost use Rattle.std.specs.Prelude.{suc, false, not, ◌&&◌, ◌≡◌};
ghost use Rattle.profile.specs.Relations.{complement, top};
ghost use Rattle.profile.specs.Rules.{rule23, rule24};
ghost use Rattle.screen.specs.steps.Totals.{TotalsTo, TotalsWithin};
ghost use Rattle.sheet.specs.Fields.{objects};
ghost use Rattle.sheet.specs.Layout.{count};
ghost use Rattle.sheet.specs.Words.{sheet_of};
ghost use Rattle.tables.specs.steps.Right.{ObjectsTabled};

use crate::SheetTotals;
use profile::limits::{COUNTED_LIMIT, GROUPS_LIMIT, UNITS_LIMIT, exceeds};
use relations::objects::leader;
use relations::sizes::{largest_member, size};
use sheet::fields::OBJECTS;
use sheet::layout::{count, level};
use tables::ObjectTables;
use tables::reads::{complement_by, top_by};

// A top object that no complement list names. `lone_by` of tables tests besides that it is no leader, which is known here.
fn is_alone(s: &[u8], tables: &ObjectTables, o: u16) -> bool
    ensures { ObjectsTabled (sheet_of s.now) tables.now → result ≡ (top (sheet_of s.now) o && not (complement (sheet_of s.now) o)) }
{
    top_by(s, tables.tops, o) & !complement_by(s, tables.complements, o)
}

impl SheetTotals {
    // The totals with one object more.
    fn with_object(self, s: &[u8], tables: &ObjectTables, o: u16) -> SheetTotals
        requires { TotalsWithin o self }
        ensures { TotalsWithin (suc o) result × (ObjectsTabled (sheet_of s.now) tables.now → TotalsTo (sheet_of s.now) o self → TotalsTo (sheet_of s.now) (suc o) result) }
    {
        if leader(s, o) {
            return SheetTotals {
                groups: self.groups + 1,
                lone: self.lone,
                tracks: self.tracks + u64::from(largest_member(s, o)),
            };
        }
        if is_alone(s, tables, o) {
            return SheetTotals {
                groups: self.groups,
                lone: self.lone + 1,
                tracks: self.tracks + u64::from(size(s, o)),
            };
        }
        self
    }

    // The totals of all objects.
    #[tactic(auto, unfolding(profile::specs::Counting::how_many, profile::specs::Counting::sum))]
    fn of_sheet(s: &[u8], tables: &ObjectTables) -> SheetTotals
        ensures { ObjectsTabled (sheet_of s.now) tables.now → TotalsTo (sheet_of s.now) (count (sheet_of s.now) objects) result }
    {
        let mut t = SheetTotals {
            groups: 0,
            lone: 0,
            tracks: 0,
        };
        for o in 0..count(s, OBJECTS) {
            t = t.with_object(s, tables, o);
        }
        t
    }
}

// Whether the whole sheet may break rule 23 or 24, which level 0 can't.
#[tactic(auto, unfolding(profile::specs::Rules::rule23, profile::specs::Rules::rule24, profile::specs::Limits::exceeds))]
pub fn totals_break(s: &[u8], tables: &ObjectTables) -> bool
    ensures { result ≡ false → ObjectsTabled (sheet_of s.now) tables.now → (rule23 (sheet_of s.now) 0 0 ≡ false) × (rule24 (sheet_of s.now) 0 0 ≡ false) }
{
    if level(s) == 0 {
        return false;
    }
    let t = SheetTotals::of_sheet(s, tables);
    exceeds(s, GROUPS_LIMIT, u64::from(t.groups))
        | exceeds(s, UNITS_LIMIT, u64::from(t.groups) + u64::from(t.lone))
        | exceeds(s, COUNTED_LIMIT, t.tracks)
}
