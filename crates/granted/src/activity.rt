// Whether the activity of objects fits a programme.
ghost use Rattle.std.specs.Prelude.{ℕ, Bool, ◌≡◌};
ghost use Rattle.granted.specs.steps.Activity.{activity_by};
ghost use Rattle.granted.specs.steps.Tables.{ProgrammeTabled};
ghost use Rattle.profile.specs.Counting.{ComputesBelow};
ghost use Rattle.sheet.specs.Words.{sheet_of};

use crate::ProgrammeTables;
use tables::members::members_passing;
use tables::reads::leader_by;

impl<'a> ProgrammeTables<'a> {
    // "activity is as started, except that any one member of a wholly included group may be the active one". The caller tells which are.
    pub fn sound_activity<F: Fn(u16) -> bool>(&self, s: &[u8], active: F, o: u16) -> bool
        requires { F.IsAlwaysCallable active }
        ensures { (a : ℕ → Bool) → ComputesBelow 65536 (F.post active) a → ProgrammeTabled (sheet_of s.now) self.now → result ≡ activity_by (sheet_of s.now) self.now.programme a o }
    {
        if self.in_whole_group(s, o) {
            members_passing(s, leader_by(s, self.leaders, o), active) == 1
        } else {
            active(o)
        }
    }
}
