// Opening and the four calls: methods by value, each with the refusals of document 01 in its checking order.
ghost use Rattle.std.specs.Prelude.{[], ◌∷◌, ◌≡◌};
ghost use Rattle.listener.specs.Calls.{answer_by, chosen_object, chosen_programme, gain_set, moved, not_open, not_sound, object_answer, offset_set, opened, opens, programme_answer, reply_by, value_answer, with_setting};
ghost use Rattle.granted.specs.steps.NamedSet.{granted_range};
ghost use Rattle.listener.specs.declared.Setting.{Setting};
ghost use Rattle.listener.specs.State.{resting_state, setting};
ghost use Rattle.listener.specs.steps.Settings.{moved_from};
ghost use Rattle.sheet.specs.Words.{sheet_of, words};
ghost use Rattle.tables.specs.steps.Right.{Leaders};

use crate::programme::started;
use crate::settings::resting;
use crate::sounding::sound;
use crate::{Refusal, Reply, STATE_OBJECTS, Setting, State};
use checker::search::check;
use granted::fitting::Value;
use granted::programme::{granted_range, in_whole_group};
use profile::Verdict;
use relations::programmes::includes;
use sheet::fields::PROGRAMMES;
use sheet::layout::{count, level};
use tables::Naming;
use tables::marks::first_namers;
use tables::reads::leader_by;
use values::Gain;

// The sheet and the list are two parameters in all calls. A struct of the two would be taken apart at once in each: `opens` alone reads the
// list, what is called besides it takes the sheet alone, and the host calls get two slices; the equations would name the two all the same.
// The state beside them is lent: a struct with the state in it by value would copy it, as told at `sound`.

// Whether the sheet is accepted under the lent list of languages, and not of level 0.
pub fn opens(s: &[u8], langs: &[u8]) -> bool
    ensures { result ≡ opens (sheet_of s.now) (words langs.now) }
{
    let verdict = check(s, langs);
    match verdict {
        Verdict::Accepted => level(s) != 0,
        Verdict::Broken(_, _) => false,
    }
}

// "Refused opening gives programme 0 and 84 times inactive, 0, 0."
#[tactic(auto, unfolding(crate::specs::State::resting_state))]
fn resting_state() -> State
    ensures { result ≡ resting_state }
{
    State {
        programme: 0,
        objects: [resting(); STATE_OBJECTS],
    }
}

// "opening chooses 0"; it can meet 25 only.
pub fn open(s: &[u8], langs: &[u8]) -> Reply
    ensures { result ≡ opened (sheet_of s.now) (words langs.now) }
{
    if opens(s, langs) {
        Reply {
            answer: Ok(()),
            state: started(s, 0),
        }
    } else {
        Reply {
            answer: Err(Refusal::NotAccepted),
            state: resting_state(),
        }
    }
}

// 25 and 26, which every call but opening can meet.
pub fn sound_answer(s: &[u8], langs: &[u8], state: &State) -> Result<(), Refusal>
    ensures { result ≡ answer_by (not_open (sheet_of s.now) (words langs.now) ∷ not_sound (sheet_of s.now) state.now ∷ []) }
{
    if !opens(s, langs) {
        return Err(Refusal::NotAccepted);
    }
    if !sound(s, state) {
        return Err(Refusal::Unsound);
    }
    Ok(())
}

// Then 27.
fn programme_answer(s: &[u8], langs: &[u8], state: &State, p: u16) -> Result<(), Refusal>
    ensures { result ≡ programme_answer (sheet_of s.now) (words langs.now) state.now p }
{
    sound_answer(s, langs, state)?;
    if count(s, PROGRAMMES) <= p {
        return Err(Refusal::NoProgramme);
    }
    Ok(())
}

// Then 28 and 29.
fn object_answer(s: &[u8], langs: &[u8], state: &State, o: u16) -> Result<(), Refusal>
    ensures { result ≡ object_answer (sheet_of s.now) (words langs.now) state.now o }
{
    sound_answer(s, langs, state)?;
    if !includes(s, state.programme, o) {
        return Err(Refusal::NotIncluded);
    }
    if !in_whole_group(s, state.programme, o) {
        return Err(Refusal::NotInGroup);
    }
    Ok(())
}

// Then 28, 30 and 31.
fn value_answer<V: Value>(
    s: &[u8],
    langs: &[u8],
    state: &State,
    o: u16,
    value: V,
) -> Result<(), Refusal>
    ensures { result ≡ value_answer (sheet_of s.now) (words langs.now) state.now o V.SORT (V.within (granted_range (sheet_of s.now) state.now.programme o V.SORT) value) }
{
    sound_answer(s, langs, state)?;
    let p = state.programme;
    if !includes(s, p, o) {
        return Err(Refusal::NotIncluded);
    }
    let range = granted_range(s, p, o, V::SORT);
    if !range.is_there() {
        return Err(Refusal::NoRange);
    }
    if value.within(range) {
        Ok(())
    } else {
        Err(Refusal::Outside)
    }
}

// "Choosing an object makes it active and the rest of its group inactive." That the table has the leaders is a premise, as in `leader_by`.
fn moved_setting(s: &[u8], leaders: &[u16], o: u16, q: u16, x: Setting) -> Setting
    ensures { Leaders (sheet_of s.now) leaders.now → result ≡ moved_from (sheet_of s.now) o q x }
{
    if leader_by(s, leaders, q) == leader_by(s, leaders, o) {
        Setting {
            active: q == o,
            ..x
        }
    } else {
        x
    }
}

// The state after an object is chosen.
fn moved(s: &[u8], state: &State, o: u16) -> State
    ensures { result ≡ moved (sheet_of s.now) state.now o }
{
    let mut leaders: [u16; STATE_OBJECTS] = [0; STATE_OBJECTS];
    first_namers(s, Naming::Complements, &mut leaders);
    let mut objects = state.objects;
    for (q, x) in objects.iter_mut().enumerate() {
        // it fits: there are 84
        *x = moved_setting(s, &leaders, o, q as u16, *x);
    }
    State {
        programme: state.programme,
        objects,
    }
}

impl State {
    // Starts a programme. It, `choose_object` and `changed` each say what a done call makes of the state. One function of the three would
    // take that as a closure, so that it is made for a done call alone, and `changed`, which stores in place, would hand its closure on
    // into one.
    pub fn choose_programme(self, s: &[u8], langs: &[u8], p: u16) -> Reply
        ensures { result ≡ chosen_programme (sheet_of s.now) (words langs.now) self p }
    {
        let answer = programme_answer(s, langs, &self, p);
        let state = if answer.is_ok() { started(s, p) } else { self };
        Reply { answer, state }
    }

    // Makes an object the active one of its group.
    pub fn choose_object(self, s: &[u8], langs: &[u8], o: u16) -> Reply
        ensures { result ≡ chosen_object (sheet_of s.now) (words langs.now) self o }
    {
        let answer = object_answer(s, langs, &self, o);
        let state = if answer.is_ok() {
            moved(s, &self, o)
        } else {
            self
        };
        Reply { answer, state }
    }

    // Stores a gain in an object, active or not. It and `set_offset` are two calls, as document 01 has them: what they share is in
    // `value_answer` and `changed`, and what is left is the field.
    pub fn set_gain(self, s: &[u8], langs: &[u8], o: u16, gain: Gain) -> Reply
        ensures { result ≡ gain_set (sheet_of s.now) (words langs.now) self o gain }
    {
        let answer = value_answer(s, langs, &self, o, gain);
        self.changed(answer, o, |x| Setting { gain, ..x })
    }

    // Stores an offset in an object, active or not: a call beside `set_gain`, as told there.
    pub fn set_offset(self, s: &[u8], langs: &[u8], o: u16, offset: i16) -> Reply
        ensures { result ≡ offset_set (sheet_of s.now) (words langs.now) self o offset }
    {
        let answer = value_answer(s, langs, &self, o, offset);
        self.changed(answer, o, |x| Setting { offset, ..x })
    }

    // A call that is done changes an object's setting, a refused one nothing.
    fn changed<F: FnOnce(Setting) -> Setting>(
        mut self,
        answer: Result<(), Refusal>,
        o: u16,
        change: F,
    ) -> Reply
        requires { F.IsAlwaysCallable change }
        ensures { (f : Setting → Setting) → ((x y : Setting) → F.post change x y → y ≡ f x) → result ≡ reply_by answer self (with_setting self o (f (setting self o))) }
    {
        let done = answer.is_ok();
        let i = usize::from(o);
        // by index: of what is written through a slice's `get_mut` a proof knows nothing
        if done && i < STATE_OBJECTS {
            self.objects[i] = change(self.objects[i]);
        }
        Reply {
            answer,
            state: self,
        }
    }
}
