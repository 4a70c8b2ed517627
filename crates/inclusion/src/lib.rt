// What one programme includes and the sets that it names, entered into a table by object, and the groups by that table: whether one member
// at most is included, or all are, with sets for all or none that have the same words.
#![tactic(auto)]

pub mod alike;
pub mod entering;
pub mod groups;
mod lists;
pub mod marks;
pub mod sets;

// Where sections 6, 2 and 7 begin. That they do, `Begins`, is a premise in each contract: a type with the fact, as an invariant or a ghost
// field, is narrower than what callers hand in today, which may not be asked of them. The same holds of one offset that is lent, as section
// 7's to `sets_differ`. The sheet stands beside them, as beside all that is read from it.
#[derive(Clone, Copy)]
pub struct SectionOffsets {
    pub references: u16,
    pub contents: u16,
    pub sets: u16,
}

// For each value set one more than its object, and one more than the set that stands for it. That they are right (`Owners`, `Alike`) is a
// premise in the contracts, for the same reason. In tables of words no `Option` stands.
#[derive(Clone, Copy)]
pub struct SetTables<'a> {
    pub owners: &'a [u16],
    pub alike: &'a [u16],
}

// The groups as rows in two lent lists: the first `count` places of each have a leader and one of its complements. There is no heap here
// for a `Vec` of pairs, and the two lists are tables that the caller has for other things too.
#[derive(Drop)]
pub struct Rows<'a> {
    pub leading: &'a mut [u16],
    pub partners: &'a mut [u16],
    pub count: u16,
}
