// Rules 1 to 24 as functions on a lent sheet: each is the definition of the same name in the profile crate, where the tables that some
// of them are lent are right. That they are right is a premise in the `ensures` and no `requires`: a public function asks nothing of its
// callers but that a closure may be called, and a private one hands the premise on as it gets it.
//
// Each takes a section and a record's index, as its definition does, though some look at neither. Sections and the positions in a record
// are document 01's numbers: the contracts hold for every number, of a section or not, so that a `match` on them ends with `_`, and an
// enum would ask more of callers.
//
// A list is named by three parameters, the section, the record and the position there, as in the definitions `list_lacks`, `repeats` and
// `bad_label`: a struct of the three would be made at each call and taken apart in each contract. The list of languages stands beside the
// sheet in the functions that need it: it is no part of the sheet, and each of the two is lent on its own.
#![tactic(auto)]

pub mod differences;
pub mod groups;
pub mod header;
pub mod limits;
pub mod lists;
pub mod naming;
pub mod objects;
pub mod ranges;
pub mod repeats;
pub mod sets;
pub mod totals;
pub mod words;
