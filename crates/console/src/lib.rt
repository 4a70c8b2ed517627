// What the programs share over the listener: the commands of the listening bench, its state and its answers.
#![tactic(auto)]

pub mod answers;
pub mod bench;
pub mod commands;
pub mod input;

// What every call is lent: the bytes of a sheet, and those of a list of languages. The state stands beside it, and not in it: a command
// hands on the next state and no loan, and each equation names sheet, list and state apart.
#[derive(Clone, Copy)]
pub struct Lent<'a> {
    pub sheet: &'a [u8],
    pub langs: &'a [u8],
}
