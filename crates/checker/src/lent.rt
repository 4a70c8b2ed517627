// Which tables a rule is lent, filling them, and the rules that take them as a struct.
ghost use Rattle.std.specs.Prelude.{length, ◌≡◌};
ghost use Rattle.checker.specs.steps.Tables.{Right, first_table, second_table};
ghost use Rattle.profile.specs.Rules.{rule19, rule22, rule23, rule24};
ghost use Rattle.runs.specs.steps.Runs.{ordinal_at};
ghost use Rattle.sheet.specs.Words.{sheet_of};
ghost use Rattle.tables.specs.steps.Marks.{Standing};
ghost use Rattle.tables.specs.steps.Right.{Complemented, Included, Leaders, Owners, Tops};

use crate::{Asked, LentTables, Table};
use languages::list::Languages;
use relations::objects::lacks;
use rules::groups::rule19;
use rules::lists::{first_target, second_target};
use rules::sets::rule22;
use rules::totals::{rule23, rule24};
use runs::fill::{fill_next, fill_repeats, stray_after};
use sheet::fields::{OBJECTS, PROGRAMMES, TRACK_ORDINAL, TRACKS};
use sheet::layout::{field, reference};
use tables::coverage::count_covered;
use tables::marks::{count_namings, first_namers};
use tables::{GroupTables, Naming, ObjectTables};

impl Asked {
    // The first table that the rule is lent for the records of the section. Two methods, since each table is filled, and has its fact in
    // the contract of `breaks`, by itself: one for both would give a pair that each of these takes apart.
    #[tactic(auto, unfolding(crate::specs::steps::Tables::first_table))]
    pub fn first_table(self) -> Table
        ensures { result ≡ first_table self.rule self.section }
    {
        match self.rule {
            5 => Table::Lacking(first_target(self.section)),
            6 => Table::Languages,
            9 => Table::Repeats,
            11 => if self.section == OBJECTS {
                Table::Named
            } else {
                Table::Spanned
            },
            12 => if self.section == PROGRAMMES {
                Table::Repeats
            } else {
                Table::Listed
            },
            14 => Table::Strays,
            15 | 19 | 23 | 24 => Table::Tops,
            17 | 18 | 22 => Table::Owners,
            _ => Table::Nothing,
        }
    }

    // The second one.
    #[tactic(auto, unfolding(crate::specs::steps::Tables::second_table))]
    pub fn second_table(self) -> Table
        ensures { result ≡ second_table self.rule self.section }
    {
        match self.rule {
            5 => Table::Lacking(second_target(self.section)),
            14 => Table::Ordinals,
            19 | 23 | 24 => Table::Complements,
            22 => Table::Leaders,
            _ => Table::Nothing,
        }
    }
}

// The ordinal of the track that a reference names.
fn ordinal_at(s: &[u8], y: u16) -> u16
    ensures { result ≡ ordinal_at (sheet_of s.now) y }
{
    field(s, TRACKS, reference(s, u32::from(y)), TRACK_ORDINAL)
}

// Fills a table of noughts. That it has noughts is a premise: a public function asks nothing of its caller, and a type for a table of
// noughts would be left with the first word that is written.
#[tactic(auto, using(screen::proofs::NoughtLaws::counts_made, screen::proofs::NoughtLaws::spans_made, screen::proofs::NoughtLaws::named_made))]
pub fn fill_table(s: &[u8], langs: &Languages, which: Table, table: &mut [u16])
    ensures { (length table.new ≡ length table.old) × (Standing (λ x. 0) table.old → Right (sheet_of s.now) langs.now which table.new) }
{
    match which {
        Table::Nothing => {}
        Table::Named => {
            count_namings(s, Naming::ContentObjects, table);
            count_covered(s, Naming::Children, table);
        }
        Table::Spanned => count_covered(s, Naming::SetSpans, table),
        Table::Listed => count_covered(s, Naming::ContentLists, table),
        Table::Tops => count_namings(s, Naming::ContentObjects, table),
        Table::Complements => count_covered(s, Naming::Complements, table),
        Table::Owners => first_namers(s, Naming::SetSpans, table),
        Table::Leaders => first_namers(s, Naming::Complements, table),
        Table::Lacking(target) => {
            fill_next(s, |y| lacks(s, target, reference(s, u32::from(y))), table);
        }
        Table::Languages => fill_next(s, |y| !langs.good(reference(s, u32::from(y))), table),
        Table::Repeats => fill_repeats(s, |y| reference(s, u32::from(y)), table),
        Table::Strays => fill_next(s, |y| stray_after(s, y), table),
        Table::Ordinals => fill_repeats(s, |y| ordinal_at(s, y), table),
    }
}

// The rules that take their tables as a struct, by those that they are lent. The structs stand here, in functions of their own: `breaks_lent`
// is drawn into the loop over the records, where a struct would be stored for each record of every rule (docs/SPEED.md).

// Rule 19.
pub(crate) fn rule19_lent(s: &[u8], lent: LentTables, section: u8, k: u16) -> bool
    ensures { Tops (sheet_of s.now) lent.entry.first.now → Complemented (sheet_of s.now) lent.entry.second.now → result ≡ rule19 (sheet_of s.now) section k }
{
    let tables = ObjectTables {
        tops: lent.first,
        complements: lent.second,
    };
    rule19(s, &tables, section, k)
}

// Rule 22. What the programme includes stands in marks.
pub(crate) fn rule22_lent(s: &[u8], lent: LentTables, marks: &[u16], section: u8, k: u16) -> bool
    ensures { Owners (sheet_of s.now) lent.entry.first.now → Leaders (sheet_of s.now) lent.entry.second.now → Included (sheet_of s.now) k marks.now → result ≡ rule22 (sheet_of s.now) section k }
{
    let tables = GroupTables {
        owners: lent.first,
        leaders: lent.second,
    };
    rule22(s, &tables, marks, section, k)
}

// Rule 23.
pub(crate) fn rule23_lent(s: &[u8], lent: LentTables, section: u8, k: u16) -> bool
    ensures { Tops (sheet_of s.now) lent.entry.first.now → Complemented (sheet_of s.now) lent.entry.second.now → result ≡ rule23 (sheet_of s.now) section k }
{
    let tables = ObjectTables {
        tops: lent.first,
        complements: lent.second,
    };
    rule23(s, &tables, section, k)
}

// Rule 24.
pub(crate) fn rule24_lent(s: &[u8], lent: LentTables, section: u8, k: u16) -> bool
    ensures { Tops (sheet_of s.now) lent.entry.first.now → Complemented (sheet_of s.now) lent.entry.second.now → result ≡ rule24 (sheet_of s.now) section k }
{
    let tables = ObjectTables {
        tops: lent.first,
        complements: lent.second,
    };
    rule24(s, &tables, section, k)
}
