// How many members of a group pass a test that the caller gives.
ghost use Rattle.std.specs.Prelude.{ℕ, Bool, ◌≡◌};
ghost use Rattle.profile.specs.Counting.{ComputesBelow};
ghost use Rattle.sheet.specs.Words.{sheet_of};
ghost use Rattle.tables.specs.steps.Members.{flagged, how_many_members};

use crate::reads::look;
use relations::entries::how_many_entries;
use sheet::fields::{COMPLEMENT_LIST, OBJECTS};

// Whether an object is flagged.
#[tactic(auto, unfolding(crate::specs::steps::Members::flagged))]
pub fn flagged(table: &[u16], o: u16) -> bool
    ensures { result ≡ flagged table.now o }
{
    look(table, o).is_some_and(|flag| flag != 0)
}

// How many members of a leader's group pass: the leader and its complements.
pub fn members_passing<F: Fn(u16) -> bool>(s: &[u8], l: u16, test: F) -> u32
    requires { F.IsAlwaysCallable test }
    ensures { (p : ℕ → Bool) → ComputesBelow 65536 (F.post test) p → result ≡ how_many_members (sheet_of s.now) p l }
{
    u32::from(test(l)) + u32::from(how_many_entries(s, OBJECTS, l, COMPLEMENT_LIST, test))
}
