// What a programme gives its objects: start values, granted ranges, wholly included groups; and which values and activity fit them. A
// programme and an object are two numbers in these functions, as in the definitions that their contracts cite. Each is read alone too, so a
// struct of the two would be taken apart wherever a word is read.
#![tactic(auto)]

pub mod activity;
pub mod fitting;
pub mod included;
pub mod programme;

// An interaction range by its words. Where there is none, its words are absent: no `Option`, since the contracts of `granted_range` and
// `range_by` give the two words, absent ones too.
#[derive(Clone, Copy)]
pub struct Range {
    pub minimum: u16,
    pub maximum: u16,
}

// A programme with the tables that its objects are looked up in: `leaders` has the leader of each object's group, `included` what the
// programme includes. That they are right is a premise and no invariant, since the public functions over them ask nothing of their caller
// but that a closure may be called.
#[derive(Clone, Copy)]
pub struct ProgrammeTables<'a> {
    pub programme: u16,
    pub leaders: &'a [u16],
    pub included: &'a [u16],
}
