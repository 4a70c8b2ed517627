// Rule 6: words and labels outside their values. That a table is right is a premise, as lib.rt tells.
ghost use Rattle.std.specs.Prelude.{◌≡◌};
ghost use Rattle.profile.specs.Rules.{bad_label, bad_object, bad_object_words, bad_pack, bad_set, bad_set_words, bad_speech, object_range, rule6, set_range};
ghost use Rattle.runs.specs.steps.Runs.{LanguagesRight};
ghost use Rattle.sheet.specs.Words.{sheet_of};

use languages::list::Languages;
use relations::labels::bad_label;
use relations::sets::{object_values, set_values};
use relations::speech::{CONTENT_SPEECH, PROGRAMME_SPEECH, SpeechPositions};
use runs::reads::look_up;
use sheet::fields::{
    CONTENTS, INTERACT, KIND_DIRECT_SPEAKERS, KIND_OBJECTS, OBJECTS, PACK_FRONT, PACK_KIND, PACKS,
    PROGRAMMES, SET_OWN, VALUE_SETS,
};
use sheet::layout::field;
use values::Sort;
use values::language::loudness;

// A label outside, by the table where it has the list. A `match`: tried with `unwrap_or_else`, and the proof didn't close, since of a closure
// that holds the languages the library's `ensures` tells that it returned, and not what (its premise of the result is `Unit`).
fn bad_label_by(s: &[u8], langs: &Languages, next: &[u16], section: u8, k: u16, at: u8) -> bool
    ensures { LanguagesRight (sheet_of s.now) langs.now next.now → result ≡ bad_label (sheet_of s.now) langs.now section k at }
{
    match look_up(s, next, section, k, at) {
        Some(found) => found,
        None => bad_label(s, langs, section, k, at),
    }
}

// Language, labels and loudness of a programme or content.
#[tactic(auto, unfolding(profile::specs::Rules::bad_speech))]
fn bad_speech(
    s: &[u8],
    langs: &Languages,
    next: &[u16],
    section: u8,
    k: u16,
    at: SpeechPositions,
) -> bool
    ensures { LanguagesRight (sheet_of s.now) langs.now next.now → result ≡ bad_speech (sheet_of s.now) langs.now section k at.language at.labels at.loudness }
{
    !langs.good(field(s, section, k, at.language))
        | bad_label_by(s, langs, next, section, k, at.labels)
        | !loudness(field(s, section, k, at.loudness))
}

// This and the next three functions are the definitions of their names, each one call on the words of an object or of a value set: a function
// for an object and a set would be handed those words, and be the method that they call.
#[tactic(auto, unfolding(profile::specs::Rules::bad_object_words))]
fn bad_object_words(s: &[u8], o: u16, sort: Sort) -> bool
    ensures { result ≡ bad_object_words (sheet_of s.now) o sort }
{
    object_values(s, o, sort).bad_words(sort)
}

#[tactic(auto, unfolding(profile::specs::Rules::bad_set_words))]
fn bad_set_words(s: &[u8], v: u16, sort: Sort) -> bool
    ensures { result ≡ bad_set_words (sheet_of s.now) v sort }
{
    set_values(s, v, sort).bad_words(sort)
}

// A range word of that sort is present in an object.
#[tactic(auto, unfolding(profile::specs::Rules::object_range))]
pub fn object_range(s: &[u8], o: u16, sort: Sort) -> bool
    ensures { result ≡ object_range (sheet_of s.now) o sort }
{
    object_values(s, o, sort).has_range()
}

// A range word of that sort is present in a set.
#[tactic(auto, unfolding(profile::specs::Rules::set_range))]
pub fn set_range(s: &[u8], v: u16, sort: Sort) -> bool
    ensures { result ≡ set_range (sheet_of s.now) v sort }
{
    set_values(s, v, sort).has_range()
}

#[tactic(auto, unfolding(profile::specs::Rules::bad_object))]
fn bad_object(s: &[u8], o: u16) -> bool
    ensures { result ≡ bad_object (sheet_of s.now) o }
{
    (1 < field(s, OBJECTS, o, INTERACT))
        | bad_object_words(s, o, Sort::Gains)
        | bad_object_words(s, o, Sort::Offsets)
}

#[tactic(auto, unfolding(profile::specs::Rules::bad_pack))]
pub fn bad_pack(s: &[u8], k: u16) -> bool
    ensures { result ≡ bad_pack (sheet_of s.now) k }
{
    let kind = field(s, PACKS, k, PACK_KIND);
    !((kind == KIND_DIRECT_SPEAKERS) | (kind == KIND_OBJECTS))
        | (1 < field(s, PACKS, k, PACK_FRONT))
}

#[tactic(auto, unfolding(profile::specs::Rules::bad_set))]
fn bad_set(s: &[u8], v: u16) -> bool
    ensures { result ≡ bad_set (sheet_of s.now) v }
{
    let own = field(s, VALUE_SETS, v, SET_OWN);
    (1 < own)
        | bad_set_words(s, v, Sort::Gains)
        | bad_set_words(s, v, Sort::Offsets)
        | (own == 0) & (set_range(s, v, Sort::Gains) | set_range(s, v, Sort::Offsets))
}

#[tactic(auto, unfolding(profile::specs::Rules::rule6))]
pub fn rule6(s: &[u8], langs: &Languages, next: &[u16], section: u8, k: u16) -> bool
    ensures { LanguagesRight (sheet_of s.now) langs.now next.now → result ≡ rule6 (sheet_of s.now) langs.now section k }
{
    match section {
        PROGRAMMES => bad_speech(s, langs, next, PROGRAMMES, k, PROGRAMME_SPEECH),
        CONTENTS => bad_speech(s, langs, next, CONTENTS, k, CONTENT_SPEECH),
        OBJECTS => bad_object(s, k),
        PACKS => bad_pack(s, k),
        VALUE_SETS => bad_set(s, k),
        _ => false,
    }
}
