// The screening: a sheet that passes it is accepted. One that doesn't may be accepted too. That a table is right is a premise, as lib.rt
// tells.
ghost use Rattle.std.specs.Prelude.{◌^◌, ◌<◌, false, true, ◌≡◌};
ghost use Rattle.profile.specs.Verdict.{verdict};
ghost use Rattle.profile.specs.declared.Verdict.TheVariants.{Accepted};
ghost use Rattle.screen.specs.steps.Screened.{Noughts, RecordsAndTotalsKept, RecordsTabled, header_broken};
ghost use Rattle.sheet.specs.Words.{sheet_of};
ghost use Rattle.tables.specs.steps.Right.{Spanned};

use crate::RecordTables;
use crate::records::{header_breaks, records_pass};
use crate::totals::totals_break;
use grouping::programmes::programmes_pass;
use languages::list::Languages;
use sheet::fields::{CONTENTS, OBJECTS, PROGRAMMES, VALUE_SETS};
use sheet::layout::count;
use tables::entry_counts::{entries_left, list_entries};
use tables::marks::count_namings;
use tables::namings::items;
use tables::passes::{count_lists, count_tops};
use tables::reads::all_once;
use tables::{Naming, ObjectTables};

// Where the lists of a section have more entries than this together, the sheet is left to the search. It is about twice what section 6 can
// have, so many records share long lists, and to test each list takes too long, for nothing if the sheet doesn't pass.
const MANY_ENTRIES: u32 = 65536;

// How many of MANY_ENTRIES the lists of a section leave, where they have no more.
fn left_of_many(s: &[u8], section: u8) -> Option<u32> {
    entries_left(count(s, section), MANY_ENTRIES, |k| {
        list_entries(s, section, k)
    })
}

// Whether each section's lists, with the spans of the objects, have few entries together, as they have in a short sheet. Nothing rests on
// this but time.
fn few_entries(s: &[u8]) -> bool {
    if s.len() < 8192 {
        return true;
    }
    let Some(left) = left_of_many(s, OBJECTS) else {
        return false;
    };
    let spans = entries_left(count(s, OBJECTS), left, |o| {
        u32::from(items(s, Naming::SetSpans, o))
    });
    spans.is_some() & left_of_many(s, PROGRAMMES).is_some() & left_of_many(s, CONTENTS).is_some()
}

// Whether the header and the sections keep rules 1, 2, 3 and 7, and the lists have few entries.
fn header_passes(s: &[u8]) -> bool
    ensures { result ≡ true → header_broken (sheet_of s.now) ≡ false }
{
    s.len() >= 32 && !header_breaks(s) && few_entries(s)
}

// Whether the records keep rules 4 to 20, each value set is in one span, and the sheet keeps rules 23 and 24.
fn records_and_totals_pass(
    s: &[u8],
    langs: &Languages,
    tables: &RecordTables,
    spanned: &[u16],
) -> bool
    ensures { result ≡ true → RecordsTabled (sheet_of s.now) tables.now → Spanned (sheet_of s.now) spanned.now → RecordsAndTotalsKept (sheet_of s.now) langs.now }
{
    if !records_pass(s, langs, tables) {
        return false;
    }
    if !all_once(spanned, count(s, VALUE_SETS)) {
        return false;
    }
    !totals_break(s, &tables.objects)
}

// The tables of the screening: how often each object and content is named, in how many spans each value set is, and whose it is. Each is
// lent to be written, and they begin with noughts, which the `requires` of `screened` says: once they are filled it holds no more.
#[derive(Drop)]
struct SheetTables<'a> {
    named: &'a mut [u16],
    spanned: &'a mut [u16],
    listed: &'a mut [u16],
    tops: &'a mut [u16],
    complements: &'a mut [u16],
    owners: &'a mut [u16],
}

// With tables of noughts. Those of the objects serve the programmes as well, once the records are tested.
fn screened(s: &[u8], langs: &Languages, tables: SheetTables) -> bool
    requires { Noughts tables }
    ensures { result ≡ true → verdict (sheet_of s.now) langs.now ≡ Accepted }
{
    if !langs.rises() {
        return false;
    }
    if !header_passes(s) {
        return false;
    }
    let SheetTables {
        named,
        spanned,
        listed,
        tops,
        complements,
        owners,
    } = tables;
    count_tops(s, tops, named);
    count_lists(s, named, complements, spanned, owners);
    count_namings(s, Naming::ContentLists, listed);
    let filled = RecordTables {
        named,
        listed,
        objects: ObjectTables { tops, complements },
    };
    if !records_and_totals_pass(s, langs, &filled, spanned) {
        return false;
    }
    programmes_pass(s, owners, named, tops, complements)
}

// With tables for so many objects, contents and value sets.
fn passes<const MOST_OBJECTS: usize, const MOST_CONTENTS: usize, const MOST_SETS: usize>(
    s: &[u8],
    langs: &Languages,
) -> bool
    requires { (MOST_OBJECTS < 2 ^ 62) × (MOST_CONTENTS < 2 ^ 62) × (MOST_SETS < 2 ^ 62) }
    ensures { result ≡ true → verdict (sheet_of s.now) langs.now ≡ Accepted }
{
    let mut named = [0; MOST_OBJECTS];
    let mut spanned = [0; MOST_SETS];
    let mut listed = [0; MOST_CONTENTS];
    let mut tops = [0; MOST_OBJECTS];
    let mut complements = [0; MOST_OBJECTS];
    let mut owners = [0; MOST_SETS];
    screened(
        s,
        langs,
        SheetTables {
            named: &mut named,
            spanned: &mut spanned,
            listed: &mut listed,
            tops: &mut tops,
            complements: &mut complements,
            owners: &mut owners,
        },
    )
}

// Whether the sheet can be seen to be accepted, as far as small tables reach: one under 1,024 bytes has at most 30 objects, 99 contents and
// 70 value sets. `passes` can't be public in place of the three: it has a `requires` on its sizes, and a public one has none but that a
// closure may be called.
pub fn small_passes(s: &[u8], langs: &Languages) -> bool
    ensures { result ≡ true → verdict (sheet_of s.now) langs.now ≡ Accepted }
{
    passes::<32, 104, 72>(s, langs)
}

// One under 16,384 bytes has at most 511 objects, 1,635 contents and 1,168 value sets.
pub fn middling_passes(s: &[u8], langs: &Languages) -> bool
    ensures { result ≡ true → verdict (sheet_of s.now) langs.now ≡ Accepted }
{
    passes::<512, 1640, 1168>(s, langs)
}

// No sheet has more than 2,046 objects, 6,550 contents or 4,678 value sets.
pub fn large_passes(s: &[u8], langs: &Languages) -> bool
    ensures { result ≡ true → verdict (sheet_of s.now) langs.now ≡ Accepted }
{
    passes::<2048, 6552, 4680>(s, langs)
}
