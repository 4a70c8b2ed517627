// One pass over all programmes that shows, for sheets that keep them, that rules 21 and 22 are kept and that no programme names a
// content twice. It tells only this: where it says no, a rule may be broken or not.
#![tactic(auto)]

pub mod leaders;
pub mod programmes;
