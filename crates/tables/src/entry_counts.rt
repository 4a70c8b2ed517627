// How many entries lists have together, as far as a number. Where many records share long lists they are more than the sheet has words, so
// that the count stops at the number. Nothing rests on it but time.
ghost use Rattle.std.specs.Prelude.{ℕ, ◌-◌, Some, None, cond, leb, ◌≡◌};
ghost use Rattle.profile.specs.Counting.{sum};
ghost use Rattle.sheet.specs.Words.{sheet_of};
ghost use Rattle.tables.specs.steps.EntryCounts.{list_entries};
ghost use Rattle.tables.specs.steps.Marks.{NumbersBelow};

use sheet::fields::{
    CHILD_LIST, COMPLEMENT_LIST, CONTENT_LABELS, CONTENT_LIST, CONTENTS, OBJECTS, PROGRAMME_LABELS,
    PROGRAMMES, SET_LIST, TRACK_LIST,
};
use sheet::layout::number;

// How many entries the lists of a record have. Sections are numbers, as in all crates: the contract holds for every number.
#[tactic(auto, unfolding(crate::specs::steps::EntryCounts::list_entries))]
pub fn list_entries(s: &[u8], section: u8, k: u16) -> u32
    ensures { result ≡ list_entries (sheet_of s.now) section k }
{
    match section {
        PROGRAMMES => u32::from(number(s, PROGRAMMES, k, CONTENT_LIST))
            + u32::from(number(s, PROGRAMMES, k, SET_LIST))
            + u32::from(number(s, PROGRAMMES, k, PROGRAMME_LABELS)),
        CONTENTS => u32::from(number(s, CONTENTS, k, CONTENT_LABELS)),
        OBJECTS => u32::from(number(s, OBJECTS, k, TRACK_LIST))
            + u32::from(number(s, OBJECTS, k, CHILD_LIST))
            + u32::from(number(s, OBJECTS, k, COMPLEMENT_LIST)),
        _ => 0,
    }
}

// How many of so many entries n records leave; none is told where they have more together.
pub fn entries_left<F: Fn(u16) -> u32>(n: u16, most: u32, entries: F) -> Option<u32>
    requires { F.IsAlwaysCallable entries }
    ensures { (f : ℕ → ℕ) → NumbersBelow n (F.post entries) f → result ≡ cond (leb (sum f n) most) (Some (most - sum f n)) None }
{
    let mut left = most;
    for k in 0..n {
        left = left.checked_sub(entries(k))?;
    }
    Some(left)
}
