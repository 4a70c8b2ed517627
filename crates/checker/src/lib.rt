// The checker: the first broken rule with its place, or acceptance. Most accepted sheets are known by the screening;
// for the others it is one search over rules, sections and records.
#![tactic(auto)]

pub mod groups;
pub mod lent;
pub mod search;
pub mod subjects;
#[cfg(test)]
mod tests;

// What of a section a rule can have as its place. That it can have nothing of it is a variant and no `Option` of the other two: the list of
// rules numbers the three, and so does the definition that contracts cite (`kind_number`).
#[derive(Clone, Copy)]
pub enum SubjectKind {
    Nothing,
    // the header or section itself
    Itself,
    // each record
    Records,
}

// A rule that is asked of records of a section. Both are numbers, as in document 01: a caller may ask with any, and the contracts say what
// is answered then. An enum of rules would have to be made of the number first, and could fail.
#[derive(Clone, Copy)]
pub struct Asked {
    pub rule: u8,
    pub section: u8,
}

// The tables that a rule is lent, empty ones where it is to search. That they are right for a rule and section is a premise of the
// contracts and no fact of the type: which tables are right goes by the rule, the section, the sheet and the list, and a caller may lend
// any.
#[derive(Clone, Copy)]
pub struct LentTables<'a> {
    pub first: &'a [u16],
    pub second: &'a [u16],
}

// A table that a rule is lent, to find by one look what it would search for. The contracts of what fills it and of what reads it say by the
// variant what stands in it (`Right`). A closure that fills a table has no such name, and the rules read it without one. No table is a
// variant too, and no `Option`, as in the definitions that contracts cite (`first_table`, `second_table`, `Right`).
#[derive(Clone, Copy)]
pub enum Table {
    // none
    Nothing,
    // how often contents and child lists name an object
    Named,
    // in how many spans a value set is
    Spanned,
    // how often content lists name a content
    Listed,
    // how often contents name an object
    Tops,
    // how often complement lists name it
    Complements,
    // whose a value set is
    Owners,
    // whose complement an object is
    Leaders,
    // the next reference that this section has no record for
    Lacking(u8),
    // the next reference that is no good language
    Languages,
    // the next reference that repeats one before it
    Repeats,
    // the next reference after which one names a track of another pack, or one with an ordinal past its pack's channels
    Strays,
    // the next reference that names a track with the ordinal of one before it
    Ordinals,
}
