// Tables over the records of a sheet, filled in passes over its lists: how often a record is named, and by which record first. What
// stands at each index is the contract of the function that fills the table.
#![tactic(auto)]

pub mod coverage;
pub mod entry_counts;
pub mod marks;
pub mod members;
pub mod namings;
pub mod passes;
pub mod reads;
pub mod totals;

// The ways in which records name others. It is an enum, and no closure that walks what a record names, because contracts speak of the way,
// as `times_by s kind q` does of how often record q names each other one. `mark_items` has the walk of each.
#[derive(Clone, Copy)]
pub enum Naming {
    // a content names its object
    ContentObjects,
    // an object names its children
    Children,
    // an object names its complements
    Complements,
    // a programme names its contents
    ContentLists,
    // a programme includes the objects of its contents
    Included,
    // a programme names value sets
    SetLists,
    // an object has value sets
    SetSpans,
}

// How often contents and complement lists name each object, as far as the tables reach. That they are right, `ObjectsTabled`, is a premise
// of each contract, and the fields are public: a type with the fact, as an invariant or a ghost field, is narrower than what callers hand
// in today, which may not be asked of them. Each function that fills lent tables says that they keep their lengths, which its caller's
// proof needs: tables as arrays would be of one size for all.
#[derive(Clone, Copy)]
pub struct ObjectTables<'a> {
    pub tops: &'a [u16],
    pub complements: &'a [u16],
}

// Whose each value set is, and the leader of each object's group, as far as the tables reach. `GroupsTabled` is a premise as
// `ObjectsTabled` above, for the same reason.
#[derive(Clone, Copy)]
pub struct GroupTables<'a> {
    pub owners: &'a [u16],
    pub leaders: &'a [u16],
}
