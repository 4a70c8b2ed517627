// The rules in checking order, which records can be a rule's place, and whether one breaks it.
ghost use Rattle.std.specs.Prelude.{None, Some, cond, length, ltb, ◌≡◌};
ghost use Rattle.checker.specs.steps.Tables.{Right, first_table, second_table};
ghost use Rattle.checker.specs.steps.Rows.{KindsOf, subjects_of};
ghost use Rattle.profile.specs.Verdict.{breaks, number_at, rule_count};
ghost use Rattle.sheet.specs.Words.{sheet_of};

use crate::SubjectKind::{Itself, Nothing, Records};
use crate::lent::{rule19_lent, rule22_lent, rule23_lent, rule24_lent};
use crate::{Asked, LentTables, SubjectKind};
use languages::list::Languages;
use rules::groups::{rule20, rule21};
use rules::header::{rule1, rule2, rule3};
use rules::limits::{rule7, rule8, rule10};
use rules::lists::{rule4, rule5, rule9};
use rules::naming::{rule11, rule12};
use rules::objects::{rule13, rule14, rule15, rule16};
use rules::ranges::{rule17, rule18};
use rules::words::rule6;
use sheet::layout::count;
use tables::marks::mark_included;

// The rules in checking order.
pub const RULES: [u8; 25] = [
    33, 1, 2, 3, 4, 5, 6, 7, 8, 9, 10, 11, 12, 13, 14, 15, 16, 17, 18, 19, 20, 21, 22, 23, 24,
];

// The rule at a position of that order.
pub fn rule_at(i: usize) -> Option<u8>
    ensures { result ≡ cond (ltb i rule_count) (Some (number_at i)) None }
{
    RULES.get(i).copied()
}

// The header.
const HEADER: [SubjectKind; 8] = [
    Itself, Nothing, Nothing, Nothing, Nothing, Nothing, Nothing, Nothing,
];

// Sections 1 to 7 themselves.
const EACH_SECTION: [SubjectKind; 8] = [
    Nothing, Itself, Itself, Itself, Itself, Itself, Itself, Itself,
];

// Sections 1 to 5 themselves.
const LIMITED_SECTIONS: [SubjectKind; 8] = [
    Nothing, Itself, Itself, Itself, Itself, Itself, Nothing, Nothing,
];

// Programmes, contents and objects.
const LISTING: [SubjectKind; 8] = [
    Nothing, Records, Records, Records, Nothing, Nothing, Nothing, Nothing,
];

// Those and tracks.
const REFERRING: [SubjectKind; 8] = [
    Nothing, Records, Records, Records, Nothing, Records, Nothing, Nothing,
];

// Programmes, contents, objects, packs and value sets.
const WITH_VALUES: [SubjectKind; 8] = [
    Nothing, Records, Records, Records, Records, Nothing, Nothing, Records,
];

// Programmes and contents.
const LABELLED: [SubjectKind; 8] = [
    Nothing, Records, Records, Nothing, Nothing, Nothing, Nothing, Nothing,
];

// Packs.
const PACK_RECORDS: [SubjectKind; 8] = [
    Nothing, Nothing, Nothing, Nothing, Records, Nothing, Nothing, Nothing,
];

// Objects.
const OBJECT_RECORDS: [SubjectKind; 8] = [
    Nothing, Nothing, Nothing, Records, Nothing, Nothing, Nothing, Nothing,
];

// Objects and value sets.
const OBJECT_AND_SET_RECORDS: [SubjectKind; 8] = [
    Nothing, Nothing, Nothing, Records, Nothing, Nothing, Nothing, Records,
];

// Programmes.
const PROGRAMME_RECORDS: [SubjectKind; 8] = [
    Nothing, Records, Nothing, Nothing, Nothing, Nothing, Nothing, Nothing,
];

// What of each section, from 0 on, a rule can have as its place. Rules are document 01's numbers and the contract holds for each number:
// for an enum of rules a caller would have to show first that it is one. The rows of the header and of objects have two arms each: with
// one, `1 | 2 | 23 | 24 | 33` and `13..=16 | 19 | 20`, tried, the goals `returns-in-1` and `returns-in-13-to-16` stay open.
#[tactic(auto, using(crate::proofs::SubjectLaws::kinds_right), unfolding(profile::specs::Counting::every, crate::specs::steps::Rows::kind_number, profile::specs::Verdict::subject_kind))]
pub fn subject_kinds(rule: u8) -> [SubjectKind; 8]
    ensures { KindsOf rule result }
{
    match rule {
        1 | 2 => HEADER,
        3 => EACH_SECTION,
        4 | 8 => LISTING,
        5 => REFERRING,
        6 => WITH_VALUES,
        7 => LIMITED_SECTIONS,
        9 | 12 => LABELLED,
        10 => PACK_RECORDS,
        13..=16 => OBJECT_RECORDS,
        11 | 17 | 18 => OBJECT_AND_SET_RECORDS,
        19 | 20 => OBJECT_RECORDS,
        21 | 22 => PROGRAMME_RECORDS,
        23 | 24 | 33 => HEADER,
        _ => [Nothing; 8],
    }
}

impl SubjectKind {
    // How many records of a section a rule can have as its place.
    #[tactic(auto, unfolding(crate::specs::steps::Rows::subjects_of))]
    pub fn how_many(self, s: &[u8], section: u8) -> u16
        ensures { result ≡ subjects_of (sheet_of s.now) section self }
    {
        match self {
            Nothing => 0,
            Itself => 1,
            Records => count(s, section),
        }
    }
}

// Whether a record of a section breaks a rule. `marks` is written for the rules about a programme. It is drawn into the loop over the
// records (docs/SPEED.md), and takes the lent tables by value, so that none is read anew for each of them (docs/DESIGN-PASS.md). One arm a
// rule, so it is longer than other functions: halves of it would take the same parameters and pick by the rule's number twice. That the
// tables are right is a premise: a public function asks nothing of its caller.
#[inline(always)]
#[tactic(auto, unfolding(profile::specs::Verdict::breaks, profile::specs::Rules::rule33, crate::specs::steps::Tables::first_table, crate::specs::steps::Tables::second_table))]
pub fn breaks_lent(
    s: &[u8],
    langs: &Languages,
    tables: LentTables,
    marks: &mut [u16],
    asked: Asked,
    k: u16,
) -> bool
    ensures { (length marks.new ≡ length marks.old) × (Right (sheet_of s.now) langs.now (first_table asked.rule asked.section) tables.entry.first.now → Right (sheet_of s.now) langs.now (second_table asked.rule asked.section) tables.entry.second.now → result ≡ breaks (sheet_of s.now) langs.now asked.rule asked.section k) }
{
    let section = asked.section;
    match asked.rule {
        1 => rule1(s, section, k),
        2 => rule2(s, section, k),
        3 => rule3(s, section, k),
        4 => rule4(s, section, k),
        5 => rule5(s, tables.first, tables.second, section, k),
        6 => rule6(s, langs, tables.first, section, k),
        7 => rule7(s, section, k),
        8 => rule8(s, section, k),
        9 => rule9(s, tables.first, section, k),
        10 => rule10(s, section, k),
        11 => rule11(s, tables.first, section, k),
        12 => rule12(s, tables.first, section, k),
        13 => rule13(s, section, k),
        14 => rule14(s, tables.first, tables.second, section, k),
        15 => rule15(s, tables.first, section, k),
        16 => rule16(s, section, k),
        17 => rule17(s, tables.first, section, k),
        18 => rule18(s, tables.first, section, k),
        19 => rule19_lent(s, tables, section, k),
        20 => rule20(s, section, k),
        21 => {
            mark_included(s, k, marks);
            rule21(s, marks, section, k)
        },
        22 => {
            mark_included(s, k, marks);
            rule22_lent(s, tables, marks, section, k)
        },
        23 => rule23_lent(s, tables, section, k),
        24 => rule24_lent(s, tables, section, k),
        33 => !langs.rises(),
        _ => false,
    }
}

// The same by tables that are lent by reference.
#[inline(always)]
pub fn breaks(
    s: &[u8],
    langs: &Languages,
    tables: &LentTables,
    marks: &mut [u16],
    asked: Asked,
    k: u16,
) -> bool
    ensures { (length marks.new ≡ length marks.old) × (Right (sheet_of s.now) langs.now (first_table asked.rule asked.section) tables.now.first.now → Right (sheet_of s.now) langs.now (second_table asked.rule asked.section) tables.now.second.now → result ≡ breaks (sheet_of s.now) langs.now asked.rule asked.section k) }
{
    breaks_lent(s, langs, *tables, marks, asked, k)
}
