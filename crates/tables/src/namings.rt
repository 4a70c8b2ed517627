// Who names what.
ghost use Rattle.std.specs.Prelude.{◌≡◌};
ghost use Rattle.sheet.specs.Words.{sheet_of};
ghost use Rattle.tables.specs.steps.Namings.{items, namers, place_of};

use crate::Naming;
use sheet::fields::{
    CHILD_LIST, COMPLEMENT_LIST, CONTENT_LIST, CONTENT_OBJECT, CONTENTS, OBJECTS, PROGRAMMES,
    SET_LIST, SET_SPAN,
};
use sheet::layout::{count, number};

// Where a way's names stand: the section of the records that name, and the position of the index, the list or the span in each.
pub(crate) fn place_of(kind: Naming) -> (u8, u8)
    ensures { result ≡ place_of kind }
{
    match kind {
        Naming::ContentObjects => (CONTENTS, CONTENT_OBJECT),
        Naming::Children => (OBJECTS, CHILD_LIST),
        Naming::Complements => (OBJECTS, COMPLEMENT_LIST),
        Naming::ContentLists | Naming::Included => (PROGRAMMES, CONTENT_LIST),
        Naming::SetLists => (PROGRAMMES, SET_LIST),
        Naming::SetSpans => (OBJECTS, SET_SPAN),
    }
}

// How many records name others in that way.
pub fn namers(s: &[u8], kind: Naming) -> u16
    ensures { result ≡ namers (sheet_of s.now) kind }
{
    count(s, place_of(kind).0)
}

// How many records a record names.
pub fn items(s: &[u8], kind: Naming, q: u16) -> u16
    ensures { result ≡ items (sheet_of s.now) kind q }
{
    let (section, at) = place_of(kind);
    match kind {
        Naming::ContentObjects => 1,
        _ => number(s, section, q, at),
    }
}
