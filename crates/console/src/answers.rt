// Answers of the listener, tracks and states as text.
// Functions over a `Text`, and no `impl Display`: the reason stands at `Text` (crates/text/src/writing.rt).
ghost use Rattle.console.specs.Answers.{activity_text, answer_line, listing_line, name_text, object_line, object_lines, state_lines, values_text, words_text};
ghost use Rattle.sheet.specs.Words.{sheet_of, words};
ghost use Rattle.text.specs.Buffer.{Appends};

use crate::Lent;
use listener::settings::is_resting;
use listener::{MOST_ENTRIES, Refusal, STATE_END, Setting, State};
use text::writing::Text;
use values::Gain;

// `done`, or as in `refused 28`.
#[tactic(auto, unfolding(crate::specs::Answers::answer_line))]
pub fn put_answer(text: &mut Text, answer: Result<(), Refusal>)
    ensures { Appends text.old (answer_line answer) text.new }
{
    match answer {
        Ok(()) => text.text(b"done\n"),
        Err(refusal) => {
            text.text(b"refused ");
            text.number(u64::from(u16::from(refusal)));
            text.text(b"\n");
        }
    }
}

// Each word behind a space.
#[tactic(auto, unfolding(crate::specs::Answers::words_text), using(text::proofs::BufferLaws::appends_none))]
pub fn put_words(text: &mut Text, words: &[u16])
    ensures { Appends text.old (words_text words.now) text.new }
{
    for word in words {
        text.text(b" ");
        text.number(u64::from(*word));
    }
}

// As in `tracks 0 1 5`, or why not.
pub fn put_listing(text: &mut Text, lent: Lent, state: State)
    ensures { Appends text.old (listing_line (sheet_of lent.entry.sheet.now) (words lent.entry.langs.now) state) text.new }
{
    let mut words = [0u16; MOST_ENTRIES];
    match state.list(lent.sheet, lent.langs, &mut words) {
        Ok(entries) => {
            text.text(b"tracks");
            // it fits: 28 at most
            put_words(text, &words[..entries as usize]);
            text.text(b"\n");
        }
        Err(refusal) => put_answer(text, Err(refusal)),
    }
}

#[tactic(auto, unfolding(crate::specs::Answers::activity_text))]
fn put_activity(text: &mut Text, active: bool)
    ensures { Appends text.old (activity_text active) text.new }
{
    if active {
        text.text(b" active");
    } else {
        text.text(b" inactive");
    }
}

// The beginning of an object's line.
fn put_name(text: &mut Text, o: u16, active: bool)
    ensures { Appends text.old (name_text o active) text.new }
{
    text.text(b"object ");
    text.number(u64::from(o));
    put_activity(text, active);
}

// Its end.
fn put_values(text: &mut Text, gain: Gain, offset: i16)
    ensures { Appends text.old (values_text gain offset) text.new }
{
    text.text(b" gain ");
    text.gain(gain);
    text.text(b" offset ");
    text.signed(offset);
    text.text(b"\n");
}

// As in `object 3 active gain -60 offset 0`; an object at rest has no line.
#[tactic(auto, unfolding(crate::specs::Answers::object_line), using(text::proofs::BufferLaws::appends_none))]
fn put_setting(text: &mut Text, o: u16, x: Setting)
    ensures { Appends text.old (object_line o x) text.new }
{
    if is_resting(x) {
        return;
    }
    put_name(text, o, x.active);
    put_values(text, x.gain, x.offset);
}

// Each object that is not at rest: by number, as `state_number` of the listener, which says why.
#[tactic(auto, unfolding(profile::specs::Counting::concat_below, crate::specs::Answers::object_lines), using(text::proofs::BufferLaws::appends_none))]
fn put_objects(text: &mut Text, state: State)
    ensures { Appends text.old (object_lines state) text.new }
{
    for o in 0..STATE_END {
        put_setting(text, o, state.objects[usize::from(o)]);
    }
}

// The programme, then each object that is not at rest.
pub fn put_state(text: &mut Text, state: State)
    ensures { Appends text.old (state_lines state) text.new }
{
    text.text(b"programme ");
    text.number(u64::from(state.programme));
    text.text(b"\n");
    put_objects(text, state);
}
