// What a programme includes and the sets that it names, entered into a table by object (see groups). That the offsets and the table of
// owners are right (`Begins`, `Owners`) is a premise, for the reason that lib.rt tells. Each function that
// fills the lent table says that it keeps its length, which the caller's proof needs: a table as an array would be of one size for all.
ghost use Rattle.std.specs.Prelude.{IsSome, is_some, length, ◌≡◌};
ghost use Rattle.inclusion.specs.steps.Alike.{alike_of, owners_of};
ghost use Rattle.inclusion.specs.steps.Entering.{Entered, ObjectsEntered, SetsNoted, object_from, Begins};
ghost use Rattle.sheet.specs.Words.{sheet_of};
ghost use Rattle.tables.specs.steps.Right.{Owners};

use crate::alike::representative;
use crate::lists::ends_before;
use crate::marks::{change, told_at};
use crate::{SectionOffsets, SetTables};
use sheet::fields::{CONTENT_LIST, CONTENT_OBJECT, CONTENTS, PROGRAMMES, SET_LIST, VALUE_SETS};
use sheet::layout::{count, record_words};
use sheet::spans::{Entries, Span};
use sheet::words::word;

// The object of the content that an entry of a content list names. Of the list it reads only where it begins, so that it takes no `Span`.
#[tactic(auto, unfolding(crate::specs::steps::Entering::object_from, sheet::specs::Layout::record_words))]
pub fn object_from(s: &[u8], sections: SectionOffsets, from: u16, i: u16) -> u16
    ensures { result ≡ object_from (sheet_of s.now) sections from i }
{
    let c = word(
        s,
        usize::from(sections.references) + (usize::from(from) + usize::from(i)),
    );
    let content = usize::from(c) * usize::from(record_words(CONTENTS));
    word(
        s,
        usize::from(sections.contents) + content + usize::from(CONTENT_OBJECT),
    )
}

// Marks the objects that the programme includes with 1, where 0 stood.
fn enter_objects(s: &[u8], sections: SectionOffsets, p: u16, included: &mut [u16]) -> Option<()>
    ensures { (length included.new ≡ length included.old) × (IsSome result → Begins (sheet_of s.now) sections → ObjectsEntered (sheet_of s.now) p included.old included.new) }
{
    let list = Span::at(s, PROGRAMMES, p, CONTENT_LIST);
    let contents = Entries {
        base: sections.references,
        list,
    };
    if ends_before(s, contents) {
        return None;
    }
    for i in 0..list.count {
        change(included, object_from(s, sections, list.first, i), 0, 1)?;
    }
    Some(())
}

// Notes the sets that the programme names at their objects, where 1 stood, each by the set that stands for it. Each has to be one of the
// sheet's.
fn enter_sets(
    s: &[u8],
    sections: SectionOffsets,
    sets: SetTables,
    p: u16,
    included: &mut [u16],
) -> Option<()>
    ensures { (length included.new ≡ length included.old) × (IsSome result → Begins (sheet_of s.now) sections → Owners (sheet_of s.now) sets.entry.owners.now → SetsNoted (sheet_of s.now) sets.entry.alike.now p included.old included.new) }
{
    let total = count(s, VALUE_SETS);
    let named = Entries {
        base: sections.references,
        list: Span::at(s, PROGRAMMES, p, SET_LIST),
    };
    if ends_before(s, named) {
        return None;
    }
    for j in 0..named.list.count {
        let v = named.at(s, j);
        if total <= v {
            return None;
        }
        let owner = told_at(sets.owners, v)?;
        let more = representative(sets.alike, v).checked_add(2)?;
        change(included, owner, 1, more)?;
    }
    Some(())
}

// What the programme includes and, where there are tables of sets, the sets that it names, into a table of noughts.
pub fn enter(
    s: &[u8],
    sections: SectionOffsets,
    sets: Option<SetTables>,
    p: u16,
    included: &mut [u16],
) -> Option<()>
    ensures { (length included.new ≡ length included.old) × (IsSome result → Begins (sheet_of s.now) sections → Owners (sheet_of s.now) (owners_of sets.entry) → Entered (sheet_of s.now) (is_some sets.entry) (alike_of sets.entry) p included.old included.new) }
{
    enter_objects(s, sections, p, included)?;
    match sets {
        Some(tables) => enter_sets(s, sections, tables, p, included),
        None => Some(()),
    }
}
