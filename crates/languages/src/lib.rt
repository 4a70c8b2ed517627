// The list of languages that is lent beside a sheet: whether it rises, and which words are good under it. No word is divided to tell that
// (document 02, L4; `tools/undivided` looks for it).
#![tactic(auto)]

pub mod list;
mod reserved;
mod rising;
mod search;
pub mod table;
