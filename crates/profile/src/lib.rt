// The emission profile: document 01's limits, relations, rules and verdict as definitions (specs/), with the types and tables that the
// checker's code shares. The checker itself is the crates above.
#![tactic(auto)]

pub mod counting;
pub mod limits;
pub mod places;

// "a rule together with a place, a section and a record": the place, by section, with its record. Where the header or a whole section
// is the subject, the record is 0.
#[derive(Clone, Copy)]
pub enum Place {
    Header,
    Programme(u16),
    Content(u16),
    Object(u16),
    Pack(u16),
    Track(u16),
    Reference(u16),
    ValueSet(u16),
}

// "The verdict is acceptance, or a rule together with a place": the form that document 01 names, a verdict enum with a place enum. It is
// no `Result`: a broken rule is what a check finds when its work is done, to be told and printed, and nobody hands it up by `?`.
#[derive(Clone, Copy)]
pub enum Verdict {
    Accepted,
    Broken(u8, Place),
}
