// Wholly included groups, by tables of what a programme includes.
ghost use Rattle.std.specs.Prelude.{◌≡◌};
ghost use Rattle.granted.specs.Granted.{in_whole_group};
ghost use Rattle.granted.specs.steps.Tables.{ProgrammeTabled};
ghost use Rattle.sheet.specs.Words.{sheet_of};

use crate::ProgrammeTables;
use relations::groups::members;
use relations::objects::leader;
use tables::members::members_passing;
use tables::reads::{included_by, leader_by};

impl<'a> ProgrammeTables<'a> {
    // Whether the object is in a group that the programme wholly includes.
    pub fn in_whole_group(&self, s: &[u8], o: u16) -> bool
        ensures { ProgrammeTabled (sheet_of s.now) self.now → result ≡ in_whole_group (sheet_of s.now) self.now.programme o }
    {
        let l = leader_by(s, self.leaders, o);
        if leader(s, l) {
            members_passing(s, l, |q| included_by(s, self.programme, self.included, q))
                == members(s, l)
        } else {
            false
        }
    }
}
