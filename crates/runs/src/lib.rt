// Tables over the references, by which one look answers for a list of any length: from each index on, the least index with an entry
// that passes a test, or that repeats one before it. Each is filled in one pass from the end.
#![tactic(auto)]

pub mod fill;
pub mod reads;
