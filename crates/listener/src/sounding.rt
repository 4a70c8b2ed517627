// Whether a state is sound for a sheet.
ghost use Rattle.std.specs.Prelude.{ℕ, ◌<◌, ◌≤◌, length, false, ◌≡◌};
ghost use Rattle.listener.specs.Sound.{sound, sound_at};
ghost use Rattle.listener.specs.State.{active, state_objects};
ghost use Rattle.profile.specs.Relations.{includes};
ghost use Rattle.sheet.specs.Words.{sheet_of};
ghost use Rattle.tables.specs.steps.Marks.{Standing};
ghost use Rattle.granted.specs.steps.Tables.{ProgrammeTabled};
ghost use Rattle.tables.specs.steps.Right.{Included};

use crate::settings::is_resting;
use crate::{STATE_END, STATE_OBJECTS, State};
use granted::ProgrammeTables;
use granted::fitting::sound_values;
use sheet::fields::{CONTENT_LIST, CONTENT_OBJECT, CONTENTS, PROGRAMMES};
use sheet::layout::{count, entry, field, number};
use tables::Naming;
use tables::marks::{first_namers, mark_at};
use tables::reads::included_by;

// Writes 1 for the objects that the programme includes, into a table of noughts: one pass over the list gives the marks and the number, and
// `tables::marks::mark_included` gives the marks alone and clears the table before. Gives one more than the highest number of one below
// `state_objects`, 0 where there is none. That the table has noughts is a premise, as at `fill_table` of the checker.
pub fn enter_included(s: &[u8], p: u16, marks: &mut [u16]) -> u16
    ensures { (length marks.new ≡ length marks.old) × (result ≤ state_objects) × ((o : ℕ) → result ≤ o → o < state_objects → includes (sheet_of s.now) p o ≡ false) × (Standing (λ x. 0) marks.old → Included (sheet_of s.now) p marks.new) }
{
    let mut past: u16 = 0;
    for i in 0..number(s, PROGRAMMES, p, CONTENT_LIST) {
        let c = entry(s, PROGRAMMES, p, CONTENT_LIST, i);
        let o = field(s, CONTENTS, c, CONTENT_OBJECT);
        mark_at(marks, u32::from(o), |_| 1);
        if o < STATE_END {
            past = past.max(o + 1);
        }
    }
    past
}

// The tables of a programme's objects, written into memory that the caller lends, and the number that `enter_included` gives. That the
// memory has noughts is a premise, as there.
pub(crate) fn enter_tables<'a>(
    s: &[u8],
    p: u16,
    leaders: &'a mut [u16],
    marks: &'a mut [u16],
) -> (ProgrammeTables<'a>, u16)
    ensures programme { result.0.programme ≡ p }
    ensures within { result.1 ≤ state_objects }
    ensures none_past { (o : ℕ) → result.1 ≤ o → o < state_objects → includes (sheet_of s.now) p o ≡ false }
    ensures tabled { Standing (λ x. 0) leaders.old → Standing (λ x. 0) marks.old → ProgrammeTabled (sheet_of s.now) result.0 }
{
    first_namers(s, Naming::Complements, leaders);
    let n = enter_included(s, p, marks);
    let tables = ProgrammeTables {
        programme: p,
        leaders,
        included: marks,
    };
    (tables, n)
}

// Whether an object is active: none past the last is.
fn is_active(state: &State, o: u16) -> bool
    ensures { result ≡ active state.now o }
{
    o < STATE_END && state.objects[usize::from(o)].active
}

// One object of a sound state. That the tables are right is a premise, as in granted, whose functions read them.
fn sound_at(s: &[u8], state: &State, tables: ProgrammeTables, o: u16) -> bool
    requires { o < state_objects }
    ensures { ProgrammeTabled (sheet_of s.now) tables.entry → tables.entry.programme ≡ state.now.programme → result ≡ sound_at (sheet_of s.now) state.now o }
{
    let p = state.programme;
    let x = state.objects[usize::from(o)];
    if included_by(s, p, tables.included, o) {
        tables.sound_activity(s, |q| is_active(state, q), o)
            & sound_values(s, p, o, x.gain, x.offset)
    } else {
        is_resting(x)
    }
}

// Whether a state is sound for the sheet. What the programme doesn't include is at rest, so it has no part in a group. The state is lent,
// since a call that takes it by value copies it.
pub fn sound(s: &[u8], state: &State) -> bool
    ensures { result ≡ sound (sheet_of s.now) state.now }
{
    let p = state.programme;
    if count(s, PROGRAMMES) <= p {
        return false;
    }
    let mut leaders = [0; STATE_OBJECTS];
    let mut marks = [0; STATE_OBJECTS];
    let (tables, n) = enter_tables(s, p, &mut leaders, &mut marks);
    let mut good = true;
    for o in 0..n {
        good &= sound_at(s, state, tables, o);
    }
    for x in &state.objects[usize::from(n)..] {
        good &= is_resting(*x);
    }
    good
}
