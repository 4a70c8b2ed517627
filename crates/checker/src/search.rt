// The search for the first broken rule, "within one rule the lowest section, then the lowest record".
ghost use Rattle.std.specs.Prelude.{◌^◌, ◌<◌, length, true, ◌≡◌};
ghost use Rattle.checker.specs.Checked.{checked};
ghost use Rattle.checker.specs.steps.Kept.{KeptBelow, Unbroken};
ghost use Rattle.checker.specs.steps.Rows.{rule_place};
ghost use Rattle.checker.specs.steps.Tables.{Right, first_table, second_table};
ghost use Rattle.grouping.specs.steps.Groups.{GroupsApart};
ghost use Rattle.profile.specs.Counting.{lowest};
ghost use Rattle.profile.specs.Verdict.{breaks, verdict};
ghost use Rattle.profile.specs.declared.Verdict.TheVariants.{Accepted};
ghost use Rattle.sheet.specs.Words.{sheet_of};

use crate::groups::{grouped_programmes, kept_programmes};
use crate::lent::fill_table;
use crate::subjects::{RULES, breaks_lent, subject_kinds};
use crate::{Asked, LentTables};
use languages::list::Languages;
use languages::table::LANGUAGE_WORDS;
use profile::{Place, Verdict};
use screen::screening::{large_passes, middling_passes, small_passes};
use sheet::fields::{OBJECTS, PROGRAMMES};
use sheet::layout::count;
use std::ops::Range;
use tables::entry_counts::{entries_left, list_entries};

// The lowest record of a section before the last of some that breaks the rule asked, by the tables that the rule is lent, where those
// before the first of them keep it. Where none does, the answer is their end, as it is by the definition (`lowest`). That those before keep
// the rule is a `requires` of the three functions that take records: this one, `tabled_below` and `by_tables`. A struct of (s, langs,
// asked, records) with that as its ghost field would hold the two borrows, need a maker with the same `requires`, and be taken apart again
// at each call of `breaks_lent`, whose rules take the sheet by itself.
#[inline(never)]
fn broken_below(
    s: &[u8],
    langs: &Languages,
    tables: LentTables,
    marks: &mut [u16],
    asked: Asked,
    records: Range<u16>,
) -> u16
    requires { Unbroken (sheet_of s.now) langs.now asked.rule asked.section records.start }
    ensures { (length marks.new ≡ length marks.old) × (Right (sheet_of s.now) langs.now (first_table asked.rule asked.section) tables.entry.first.now → Right (sheet_of s.now) langs.now (second_table asked.rule asked.section) tables.entry.second.now → result ≡ lowest (breaks (sheet_of s.now) langs.now asked.rule asked.section) records.end) }
{
    for k in records.start..records.end {
        if breaks_lent(s, langs, tables, marks, asked, k) {
            return k;
        }
    }
    records.end
}

// The lowest of n records that does, with empty tables: each relation is found by its own search.
fn plainly(s: &[u8], langs: &Languages, asked: Asked, n: u16) -> u16
    ensures { result ≡ lowest (breaks (sheet_of s.now) langs.now asked.rule asked.section) n }
{
    let tables = LentTables {
        first: &[],
        second: &[],
    };
    broken_below(s, langs, tables, &mut [], asked, 0..n)
}

// The same with filled tables of so many places, and marks for so many objects.
fn tabled_below<const FIRST: usize, const SECOND: usize, const MARKS: usize>(
    s: &[u8],
    langs: &Languages,
    asked: Asked,
    records: Range<u16>,
) -> u16
    requires { Unbroken (sheet_of s.now) langs.now asked.rule asked.section records.start × (FIRST < 2 ^ 62) × (SECOND < 2 ^ 62) × (MARKS < 2 ^ 62) }
    ensures { result ≡ lowest (breaks (sheet_of s.now) langs.now asked.rule asked.section) records.end }
{
    let mut first = [0; FIRST];
    fill_table(s, langs, asked.first_table(), &mut first);
    let mut second = [0; SECOND];
    fill_table(s, langs, asked.second_table(), &mut second);
    let mut marks = [0; MARKS];
    let tables = LentTables {
        first: &first,
        second: &second,
    };
    broken_below(s, langs, tables, &mut marks, asked, records)
}

// With tables over the records of a section. No sheet has more contents, or objects, than a table has words. Like all functions with large
// tables it is kept apart, since a call touches each page of its frame (docs/SPEED.md).
#[inline(never)]
fn by_tables(s: &[u8], langs: &Languages, asked: Asked, records: Range<u16>) -> u16
    requires { Unbroken (sheet_of s.now) langs.now asked.rule asked.section records.start }
    ensures { result ≡ lowest (breaks (sheet_of s.now) langs.now asked.rule asked.section) records.end }
{
    if records.end <= records.start {
        return records.end;
    }
    tabled_below::<6552, 2048, 2048>(s, langs, asked, records)
}

// A table over the references is worth its filling where the lists of a section's records have more entries together.
const FEW_ENTRIES: u32 = 8192;

// Whether they have. The verdict is the same either way, so the contract says nothing of the answer.
fn crowded(s: &[u8], section: u8) -> bool {
    entries_left(count(s, section), FEW_ENTRIES, |k| {
        list_entries(s, section, k)
    })
    .is_none()
}

// With tables over the references, where the section's lists have many entries. No sheet has more references.
#[inline(never)]
fn by_lists(s: &[u8], langs: &Languages, asked: Asked, n: u16) -> u16
    ensures { result ≡ lowest (breaks (sheet_of s.now) langs.now asked.rule asked.section) n }
{
    if !crowded(s, asked.section) {
        return plainly(s, langs, asked, n);
    }
    tabled_below::<32768, 32768, 0>(s, langs, asked, 0..n)
}

// The lowest of n records of a section that breaks a rule, or n. A small sheet is searched without tables. The programmes before `kept`
// keep rules 21 and 22, and rule 21 comes where rule 19 is kept. These are premises of two functions and no facts of a type: of a sheet and
// `kept` together, which no struct holds, and `kept_programmes`, which asks nothing of its caller, shows the first only by the second, so
// it could make no such value. One arm for the rules, by document 01's numbers, that are lent the same kinds of tables: an enum of these
// ways would only move the numbers into the function that picks one.
#[tactic(auto, using(crate::proofs::GroupLaws::unbroken_21, crate::proofs::GroupLaws::unbroken_22))]
fn lowest_broken(s: &[u8], langs: &Languages, asked: Asked, n: u16, kept: u16) -> u16
    requires { KeptBelow (sheet_of s.now) kept × (asked.rule ≡ 21 → GroupsApart (sheet_of s.now)) }
    ensures { result ≡ lowest (breaks (sheet_of s.now) langs.now asked.rule asked.section) n }
{
    // most rules have a place in one or two of the eight sections
    if n == 0 {
        return n;
    }
    if s.len() < 1024 {
        return plainly(s, langs, asked, n);
    }
    match asked.rule {
        5 | 6 | 9 | 14 => by_lists(s, langs, asked, n),
        12 if asked.section == PROGRAMMES => by_lists(s, langs, asked, n),
        17 | 18 if asked.section == OBJECTS => plainly(s, langs, asked, n),
        11 | 12 | 15 | 17 | 18 | 19 | 23 | 24 => by_tables(s, langs, asked, 0..n),
        21 => by_tables(s, langs, asked, grouped_programmes(s, kept)..n),
        22 => by_tables(s, langs, asked, kept..n),
        _ => plainly(s, langs, asked, n),
    }
}

// The place of a rule, None where no record breaks it.
fn rule_place(s: &[u8], langs: &Languages, rule: u8, kept: u16) -> Option<Place>
    requires { KeptBelow (sheet_of s.now) kept × (rule ≡ 21 → GroupsApart (sheet_of s.now)) }
    ensures { result ≡ rule_place (sheet_of s.now) langs.now rule }
{
    let kinds = subject_kinds(rule);
    for section in 0..8 {
        let n = kinds[usize::from(section)].how_many(s, section);
        let k = lowest_broken(s, langs, Asked { rule, section }, n, kept);
        if k < n {
            return Some(Place::at(section, k));
        }
    }
    None
}

// The verdict by the search: the rules in their order. Before rule 21 one pass tells how many programmes keep it and rule 22.
#[inline(never)]
fn first_broken(sheet: &[u8], langs: &Languages) -> Verdict
    ensures { result ≡ verdict (sheet_of sheet.now) langs.now }
{
    let mut kept: u16 = 0;
    for rule in RULES {
        if rule == 21 {
            kept = kept_programmes(sheet);
        }
        if let Some(place) = rule_place(sheet, langs, rule, kept) {
            return Verdict::Broken(rule, place);
        }
    }
    Verdict::Accepted
}

// Whether the sheet passes the screening with tables for its length.
fn passes(sheet: &[u8], langs: &Languages) -> bool
    ensures { result ≡ true → verdict (sheet_of sheet.now) langs.now ≡ Accepted }
{
    if sheet.len() < 16384 {
        middling_passes(sheet, langs)
    } else {
        large_passes(sheet, langs)
    }
}

// The verdict by that screening, or else by the search. It is kept apart, so that a small sheet does not pay for its tables
// (docs/SPEED.md).
#[inline(never)]
fn large_verdict(sheet: &[u8], langs: &Languages) -> Verdict
    ensures { result ≡ verdict (sheet_of sheet.now) langs.now }
{
    if passes(sheet, langs) {
        return Verdict::Accepted;
    }
    first_broken(sheet, langs)
}

// The same with a table of the list.
#[inline(never)]
fn tabled_verdict(sheet: &[u8], langs: &Languages) -> Verdict
    ensures { result ≡ verdict (sheet_of sheet.now) langs.now }
{
    let mut table = [false; LANGUAGE_WORDS];
    let tabled = langs.tabled(&mut table);
    large_verdict(sheet, &tabled)
}

// The verdict under a list that rises. Most accepted sheets pass the screening; for the others the search decides. A large sheet may have
// many words to look up: it gets a table of the list, unless the list is long for it.
fn verdict_under(sheet: &[u8], langs: &Languages) -> Verdict
    ensures { result ≡ verdict (sheet_of sheet.now) langs.now }
{
    let n = sheet.len();
    if n < 1024 {
        if small_passes(sheet, langs) {
            return Verdict::Accepted;
        }
        return first_broken(sheet, langs);
    }
    if (n < 4096) | !langs.is_short_for(n) {
        return large_verdict(sheet, langs);
    }
    tabled_verdict(sheet, langs)
}

// The verdict on a lent sheet, under a lent list of languages: any length, any bytes.
#[tactic(auto, unfolding(crate::specs::Checked::checked))]
pub fn check(sheet: &[u8], langs: &[u8]) -> Verdict
    ensures { result ≡ checked sheet.now langs.now }
{
    match Languages::lent(langs) {
        Some(list) => verdict_under(sheet, &list),
        None => Verdict::Broken(33, Place::Header),
    }
}
