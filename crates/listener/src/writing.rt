// Listing: the tracks of the active objects, into lent words.
ghost use Rattle.std.specs.Prelude.{◌+◌, ◌≤◌, length, cond, [], ◌∷◌, ◌≡◌};
ghost use Rattle.std.proofs.lemmas.List.Edits.{sets};
ghost use Rattle.listener.specs.Calls.{answer_by};
ghost use Rattle.listener.specs.Listing.{buffered, buffered_by, entries, listed, listed_by, listed_tracks, too_few_words};
ghost use Rattle.listener.specs.StartListing.{start_buffered, start_listed};
ghost use Rattle.listener.specs.steps.Tracks.{child_tracks, object_number, object_tracks, own_tracks, state_number, state_tracks};
ghost use Rattle.sheet.specs.Words.{sheet_of, words};

use crate::calls::{opens, sound_answer};
use crate::programme::started;
use crate::{Refusal, STATE_END, State};
use relations::sizes::children_tracks;
use sheet::fields::{CHILD_LIST, OBJECTS, PROGRAMMES, TRACK_LIST};
use sheet::layout::{count, entry, number};

// How many entries an object gives if it is active: its own tracks and its children's.
#[tactic(auto, unfolding(crate::specs::steps::Tracks::object_number))]
fn number_when(s: &[u8], active: bool, o: u16) -> u64
    ensures { (result ≡ cond active (object_number (sheet_of s.now) o) 0) × (result ≤ 4295032830) }
{
    if active {
        u64::from(number(s, OBJECTS, o, TRACK_LIST)) + u64::from(children_tracks(s, o))
    } else {
        0
    }
}

// How many entries the listing has. By number, as in `write_state`: the sheet is read by it too, and `enumerate` gives a usize to narrow.
// Tried by `zip` of the numbers and the settings: the invariants then speak of lists of what was yielded, and none of the goals closes by
// itself.
fn state_number(s: &[u8], state: &State) -> u64
    ensures { result ≡ state_number (sheet_of s.now) state.now }
{
    let mut total: u64 = 0;
    for o in 0..STATE_END {
        total += number_when(s, state.objects[usize::from(o)].active, o);
    }
    total
}

// Writes an object's own tracks from a place on, and gives the place behind them. The place stands beside the words: with a part `&mut
// buffer[n..]` in its stead n would be added up all the same, and a struct of words and place, as `Text` is, would need the same bound in
// the contract of each method: a `Text` drops what has no room, and here all must fit.
fn write_own(s: &[u8], o: u16, buffer: &mut [u16], at: usize) -> usize
    requires { at + length (own_tracks (sheet_of s.now) o) ≤ length buffer.old }
    ensures { (result ≡ at + length (own_tracks (sheet_of s.now) o)) × (buffer.new ≡ sets buffer.old at (own_tracks (sheet_of s.now) o)) }
{
    let n = number(s, OBJECTS, o, TRACK_LIST);
    for i in 0..n {
        buffer[at + usize::from(i)] = entry(s, OBJECTS, o, TRACK_LIST, i);
    }
    at + usize::from(n)
}

// Writes its children's.
fn write_children(s: &[u8], o: u16, buffer: &mut [u16], at: usize) -> usize
    requires { at + length (child_tracks (sheet_of s.now) o) ≤ length buffer.old }
    ensures { (result ≡ at + length (child_tracks (sheet_of s.now) o)) × (buffer.new ≡ sets buffer.old at (child_tracks (sheet_of s.now) o)) }
{
    let mut pos = at;
    for i in 0..number(s, OBJECTS, o, CHILD_LIST) {
        pos = write_own(s, entry(s, OBJECTS, o, CHILD_LIST, i), buffer, pos);
    }
    pos
}

// Writes both.
fn write_object(s: &[u8], o: u16, buffer: &mut [u16], at: usize) -> usize
    requires { at + length (object_tracks (sheet_of s.now) o) ≤ length buffer.old }
    ensures { (result ≡ at + length (object_tracks (sheet_of s.now) o)) × (buffer.new ≡ sets buffer.old at (object_tracks (sheet_of s.now) o)) }
{
    let pos = write_own(s, o, buffer, at);
    write_children(s, o, buffer, pos)
}

// Writes all of them from the buffer's start.
fn write_state(s: &[u8], state: &State, buffer: &mut [u16])
    requires { length (state_tracks (sheet_of s.now) state.now) ≤ length buffer.old }
    ensures { buffer.new ≡ sets buffer.old 0 (state_tracks (sheet_of s.now) state.now) }
{
    let mut pos: usize = 0;
    for o in 0..STATE_END {
        if state.objects[usize::from(o)].active {
            pos = write_object(s, o, buffer, pos);
        }
    }
}

// Writes the listing if the words are enough, and gives how many entries it has; a refused one writes nothing: 32. No `From` makes a u64 of
// a usize.
fn write_listing(s: &[u8], state: &State, buffer: &mut [u16]) -> Result<u64, Refusal>
    ensures { (result ≡ listed_by (length (entries (sheet_of s.now) state.now)) (answer_by (too_few_words (sheet_of s.now) state.now (length buffer.old) ∷ []))) × (buffer.new ≡ buffered_by buffer.old (listed_tracks (sheet_of s.now) state.now) (answer_by (too_few_words (sheet_of s.now) state.now (length buffer.old) ∷ []))) }
{
    let n = state_number(s, state);
    if (buffer.len() as u64) < n {
        return Err(Refusal::TooFewWords);
    }
    write_state(s, state, buffer);
    Ok(n)
}

impl State {
    // Writes the tracks of the active objects and gives how many. A number and no part of the buffer: "later words stay", so the contract
    // says what the whole buffer has, which a part that is handed out would keep lent.
    pub fn list(self, s: &[u8], langs: &[u8], buffer: &mut [u16]) -> Result<u64, Refusal>
        ensures { (result ≡ listed (sheet_of s.now) (words langs.now) self (length buffer.old)) × (buffer.new ≡ buffered (sheet_of s.now) (words langs.now) self buffer.old) }
    {
        sound_answer(s, langs, &self)?;
        write_listing(s, &self, buffer)
    }
}

// The listing of a programme's start, without a state: 25, 27 and 32, in this order.
pub fn list_start(s: &[u8], langs: &[u8], p: u32, buffer: &mut [u16]) -> Result<u64, Refusal>
    ensures { (result ≡ start_listed (sheet_of s.now) (words langs.now) p (length buffer.old)) × (buffer.new ≡ start_buffered (sheet_of s.now) (words langs.now) p buffer.old) }
{
    if !opens(s, langs) {
        return Err(Refusal::NotAccepted);
    }
    if u32::from(count(s, PROGRAMMES)) <= p {
        return Err(Refusal::NoProgramme);
    }
    // it fits: it is below the count of programmes
    write_listing(s, &started(s, p as u16), buffer)
}
