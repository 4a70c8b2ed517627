// What choosing a programme gives the state.
ghost use Rattle.std.specs.Prelude.{◌≡◌};
ghost use Rattle.listener.specs.Programme.{start_setting, started};
ghost use Rattle.sheet.specs.Words.{sheet_of};
ghost use Rattle.granted.specs.steps.Tables.{ProgrammeTabled};

use crate::settings::resting;
use crate::sounding::enter_tables;
use crate::{STATE_OBJECTS, Setting, State};
use granted::ProgrammeTables;
use granted::programme::start_value;
use tables::reads::included_by;
use values::Sort;
use values::gains::gain_of;
use values::signed::signed;

// What choosing a programme gives an object. That the tables are right is a premise, as in granted, whose functions read them.
fn start_setting(s: &[u8], tables: ProgrammeTables, o: u16) -> Setting
    ensures { ProgrammeTabled (sheet_of s.now) tables.entry → result ≡ start_setting (sheet_of s.now) tables.entry.programme o }
{
    let p = tables.programme;
    if included_by(s, p, tables.included, o) {
        Setting {
            active: tables.starts_active(s, o),
            gain: gain_of(start_value(s, p, o, Sort::Gains)),
            offset: signed(start_value(s, p, o, Sort::Offsets)),
        }
    } else {
        resting()
    }
}

// A programme as it starts. What it doesn't include, as all numbers from n on, is at rest. The loop goes by the objects' numbers, which the
// sheet and the tables are read by.
pub fn started(s: &[u8], p: u16) -> State
    ensures { result ≡ started (sheet_of s.now) p }
{
    let mut leaders = [0; STATE_OBJECTS];
    let mut marks = [0; STATE_OBJECTS];
    let (tables, n) = enter_tables(s, p, &mut leaders, &mut marks);
    let mut objects = [resting(); STATE_OBJECTS];
    for o in 0..n {
        objects[usize::from(o)] = start_setting(s, tables, o);
    }
    State {
        programme: p,
        objects,
    }
}
