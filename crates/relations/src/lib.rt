// The relations that rules and listener share, as functions on a lent sheet. Each has a contract of its own, the definition of the
// same name in the profile crate, so that a body can be made faster without touching a caller.
#![tactic(auto)]

pub mod entries;
pub mod groups;
pub mod labels;
pub mod objects;
pub mod programmes;
pub mod records;
pub mod sets;
pub mod sizes;
pub mod speech;
