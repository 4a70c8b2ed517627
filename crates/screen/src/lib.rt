// The screening of a sheet: one pass over each section that shows for most accepted sheets that no rule is broken. Where it cannot tell,
// the search of the checker decides.
//
// That a table is right is a premise in the `ensures` and no `requires`: a public function asks nothing of its callers, and a private one
// hands the premise on as it gets it.
#![tactic(auto)]

pub mod complements;
pub mod object_words;
pub mod objects;
pub mod records;
pub mod screening;
pub mod sets;
pub mod totals;

use relations::sets::Values;
use tables::ObjectTables;

// What of an object counts for the values of its sets: its interact word, whether its pack is of kind 3 with front 1, and its values.
#[derive(Clone, Copy)]
pub struct ObjectValues {
    pub interact: u16,
    pub front: bool,
    pub gains: Values,
    pub offsets: Values,
}

// What objects add up to: groups, top objects in no group, and counted tracks.
#[derive(Clone, Copy)]
pub struct SheetTotals {
    pub groups: u32,
    pub lone: u32,
    pub tracks: u64,
}

// The tables that the records are tested with: how often contents and child lists name each object, how often content lists name each
// content, and those of the objects. They are slices of one length or another, as many places as the caller has memory for. That they are
// right is no invariant of the struct: it speaks of a sheet, which each function is lent beside it.
#[derive(Clone, Copy)]
pub struct RecordTables<'a> {
    pub named: &'a [u16],
    pub listed: &'a [u16],
    pub objects: ObjectTables<'a>,
}
