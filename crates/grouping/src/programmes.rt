// The programmes one after the other, by the rows of the groups or by the leaders of their objects. That the table of owners is right, and
// what the pass rests on (`Owners`, `GroupsGround`, and what `KeptFrom` names), are premises, for the reason that lib.rt of inclusion
// tells.
ghost use Rattle.std.specs.Prelude.{◌-◌, ◌<◌, is_some, length, true, ◌≡◌};
ghost use Rattle.grouping.specs.steps.Groups.{GroupsGround, ProgrammesKept};
ghost use Rattle.inclusion.specs.steps.Entering.{Begins};
ghost use Rattle.grouping.specs.steps.Passing.{KeptFrom, same_list, same_lists};
ghost use Rattle.sheet.specs.Words.{sheet_of};
ghost use Rattle.tables.specs.steps.Right.{Owners};

use crate::leaders::groups_asked;
use inclusion::entering::enter;
use inclusion::{Rows, SectionOffsets, SetTables};
use sheet::fields::{
    CONTENT_LIST, CONTENTS, OBJECTS, PROGRAMMES, REFERENCES, SET_LIST, VALUE_SETS,
};
use sheet::layout::{count, number, offset};
use sheet::spans::Span;
use tables::Naming;
use tables::entry_counts::entries_left;
use tables::marks::{clear, first_namers, mark_objects};

// Whether two programmes have the same list at a position.
#[tactic(auto, unfolding(crate::specs::steps::Passing::same_list))]
fn same_list(s: &[u8], p: u16, q: u16, at: u8) -> bool
    ensures { result ≡ same_list (sheet_of s.now) p q at }
{
    Span::at(s, PROGRAMMES, p, at) == Span::at(s, PROGRAMMES, q, at)
}

// Whether they have the same contents and, where there are tables of sets, the same sets.
fn same_lists(s: &[u8], sets: Option<SetTables>, p: u16, q: u16) -> bool
    ensures { result ≡ same_lists (sheet_of s.now) (is_some sets.entry) p q }
{
    same_list(s, p, q, CONTENT_LIST) && (sets.is_none() || same_list(s, p, q, SET_LIST))
}

// Whether programme p comes after the first that is tested and has the lists of the one before it: it keeps what that one keeps.
fn repeats_before(s: &[u8], sets: Option<SetTables>, from: u16, p: u16) -> bool
    ensures { result ≡ true → (from < p) × (same_lists (sheet_of s.now) (is_some sets.entry) p (p - 1) ≡ true) }
{
    (from < p) && same_lists(s, sets, p, p - 1)
}

// Where sections 6, 2 and 7 begin.
fn section_offsets(s: &[u8]) -> SectionOffsets
    ensures { Begins (sheet_of s.now) result }
{
    SectionOffsets {
        references: offset(s, REFERENCES),
        contents: offset(s, CONTENTS),
        sets: offset(s, VALUE_SETS),
    }
}

// How many programmes from the first on can be seen to keep rule 21 and, where there are tables of sets, rule 22, by the rows of the
// groups, where those before `from` do. What the two ways share is the loop with its two questions: they differ in what they do to the
// tables before it, at each programme and after it. One function for both would take what is done at a programme as a closure that writes
// the tables, and its contract would say by that closure's `step` what `KeptFrom` says here: the shared six lines are fewer than that. The
// three tables are lent one by one down from `programmes_pass`, and `KeptFrom` tells of each that it keeps its length; what stands in the
// first two is another thing in each way, so that a struct would have no names for them.
fn rows_from(
    s: &[u8],
    from: u16,
    sets: Option<SetTables>,
    leading: &mut [u16],
    partners: &mut [u16],
    included: &mut [u16],
) -> u16
    ensures { KeptFrom (sheet_of s.now) from sets.entry leading.old partners.old included.old leading.new partners.new included.new result }
{
    let sections = section_offsets(s);
    let mut rows = Rows {
        leading,
        partners,
        count: 0,
    };
    if rows.list(s).is_none() {
        return from;
    }
    let n = count(s, PROGRAMMES);
    for p in from..n {
        if repeats_before(s, sets, from, p) {
            continue;
        }
        clear(included);
        if enter(s, sections, sets, p, included).is_none() {
            return p;
        }
        if !rows.groups_kept(s, sections, included) {
            return p;
        }
    }
    from.max(n)
}

// The same by the leaders of their objects. The table of what is included has noughts before each programme.
fn leaders_from(
    s: &[u8],
    from: u16,
    sets: Option<SetTables>,
    leaders: &mut [u16],
    groups: &mut [u16],
    included: &mut [u16],
) -> u16
    ensures { KeptFrom (sheet_of s.now) from sets.entry leaders.old groups.old included.old leaders.new groups.new included.new result }
{
    let sections = section_offsets(s);
    clear(leaders);
    first_namers(s, Naming::Complements, leaders);
    clear(groups);
    clear(included);
    let n = count(s, PROGRAMMES);
    for p in from..n {
        if repeats_before(s, sets, from, p) {
            continue;
        }
        if enter(s, sections, sets, p, included).is_none() {
            return p;
        }
        if groups_asked(s, sections, leaders, p, included, groups).is_none() {
            return p;
        }
        mark_objects(s, p, |_| 0, included);
    }
    from.max(n)
}

// Whether the content lists have, one with another, less than an entry for 32 objects. Nothing rests on this but time.
#[tactic(auto, using(sheet::proofs::IndexLaws::product))]
fn short_lists(s: &[u8]) -> bool {
    let o = count(s, OBJECTS);
    if o < 64 {
        return false;
    }
    let programmes = count(s, PROGRAMMES);
    let most = u32::from(programmes) * (u32::from(o) / 32);
    let left = entries_left(programmes, most, |p| {
        u32::from(number(s, PROGRAMMES, p, CONTENT_LIST))
    });
    left.is_some_and(|n| n > 0)
}

// The same in tables with a place for each object: by the leaders where the content lists are short, else by the rows. Which way it is
// decides what the first two tables hold.
pub fn kept_from(
    s: &[u8],
    from: u16,
    sets: Option<SetTables>,
    first: &mut [u16],
    second: &mut [u16],
    included: &mut [u16],
) -> u16
    ensures { KeptFrom (sheet_of s.now) from sets.entry first.old second.old included.old first.new second.new included.new result }
{
    if short_lists(s) {
        return leaders_from(s, from, sets, first, second, included);
    }
    rows_from(s, from, sets, first, second, included)
}

// Whether all programmes can be seen to keep rules 21 and 22 and to name no content twice. What stands in the last three tables at the
// start does not matter; with one that is shorter than the number of objects it can't be seen.
pub fn programmes_pass(
    s: &[u8],
    owners: &[u16],
    included: &mut [u16],
    first: &mut [u16],
    second: &mut [u16],
) -> bool
    ensures { (length included.new ≡ length included.old) × (length first.new ≡ length first.old) × (length second.new ≡ length second.old) × (result ≡ true → Owners (sheet_of s.now) owners.now → GroupsGround (sheet_of s.now) → ProgrammesKept (sheet_of s.now)) }
{
    // std's `get_mut(..n)` would say nothing of what the tables end as, not even that they keep their lengths
    let n = usize::from(count(s, OBJECTS));
    if (included.len() < n) || (first.len() < n) || (second.len() < n) {
        return false;
    }
    let sets = SetTables { owners, alike: &[] };
    kept_from(
        s,
        0,
        Some(sets),
        &mut first[..n],
        &mut second[..n],
        &mut included[..n],
    ) == count(s, PROGRAMMES)
}
