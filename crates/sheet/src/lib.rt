// Reading a sheet: the words of a lent byte slice, its sections, records, fields and lists (document 01, "The sheet").
// Every read is total: it has no `requires` and gives 0 past the end, so no sheet can make it fail.
//
// A sheet is `s: &[u8]` in all crates, and `sheet_of s.now` in contracts: the host calls lend bytes, and public functions take them. A type
// for a sheet would be made at each of these calls, and contracts would say `s.now` of it, no less.
#![tactic(auto)]

pub mod fields;
pub mod layout;
pub mod spans;
pub mod words;
