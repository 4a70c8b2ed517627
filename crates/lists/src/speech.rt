// Programmes and contents: the rules that need no table.
ghost use Rattle.std.specs.Prelude.{◌+◌, false, ◌≡◌};
ghost use Rattle.lists.specs.steps.Speech.{content_broken, programme_broken, programme_lists_broken, speech_broken};
ghost use Rattle.sheet.specs.Words.{sheet_of, word};

use crate::entries::{any_lacking, any_no_language, any_twice, labels_rise};
use crate::words::{ends_before, record_at, span_at, word_at};
use languages::list::Languages;
use profile::limits::{LABELS_LIMIT, PROGRAMME_CONTENTS_LIMIT, PROGRAMME_SETS_LIMIT, exceeds};
use relations::speech::{CONTENT_SPEECH, PROGRAMME_SPEECH, SpeechPositions};
use sheet::fields::{
    CONTENT_LIST, CONTENT_OBJECT, CONTENTS, OBJECTS, PROGRAMMES, REFERENCES, SET_LIST, VALUE_SETS,
};
use sheet::layout::count;
use sheet::spans::Span;
use values::language::loudness;

// A list of so many labels is compared by pairs; a longer one is left to the search.
const LONGEST: u16 = 16;

// The language, the labels and the loudness of a programme or content.
#[derive(Clone, Copy)]
struct Speech {
    language: u16,
    labels: Span,
    loudness: u16,
}

impl Speech {
    // Those of the record whose words begin at an index.
    fn at(s: &[u8], at: u32, position: SpeechPositions) -> Speech
        ensures language { result.language ≡ word (sheet_of s.now) (at + position.language) }
        ensures first { result.labels.first ≡ word (sheet_of s.now) (at + position.labels) }
        ensures count { result.labels.count ≡ word (sheet_of s.now) (at + (position.labels + 1)) }
        ensures loudness { result.loudness ≡ word (sheet_of s.now) (at + position.loudness) }
    {
        Speech {
            language: word_at(s, at, position.language),
            labels: span_at(s, at, position.labels),
            loudness: word_at(s, at, position.loudness),
        }
    }

    // Whether they break a rule.
    #[tactic(auto, unfolding(crate::specs::steps::Speech::speech_broken))]
    fn breaks(self, s: &[u8], langs: &Languages) -> bool
        ensures { result ≡ speech_broken (sheet_of s.now) langs.now self.language self.labels.first self.labels.count self.loudness }
    {
        let n = u64::from(self.labels.count);
        let entries = self.labels.entries(s);
        if labels_rise(s, entries, langs) {
            return self.labels.is_beyond(count(s, REFERENCES))
                | (!langs.good(self.language) | !loudness(self.loudness))
                | exceeds(s, LABELS_LIMIT, n);
        }
        self.labels.is_beyond(count(s, REFERENCES))
            | (!langs.good(self.language)
                | any_no_language(s, entries, langs)
                | !loudness(self.loudness))
            | exceeds(s, LABELS_LIMIT, n)
            | any_twice(s, entries)
    }
}

// Whether a content may break one of rules 4, 5, 6, 8 and 9. It opens as `programme_breaks` does: one function for both openings would
// give the index and the words of speech or neither, and each caller would take them apart, and say its section and positions still. The
// test of a long list stands in both: in `Speech::breaks`, tried and proved, the check of the largest honest sheet takes 0.5 % more, where
// the forms taken up before had used up its 2 % (docs/DECISIONS.md, 135).
pub fn content_breaks(s: &[u8], langs: &Languages, k: u16) -> bool
    ensures { result ≡ false → content_broken (sheet_of s.now) langs.now k ≡ false }
{
    let at = record_at(s, CONTENTS, k);
    if ends_before(s, CONTENTS, at) {
        return true;
    }
    let speech = Speech::at(s, at, CONTENT_SPEECH);
    if LONGEST < speech.labels.count {
        return true;
    }
    if count(s, OBJECTS) <= word_at(s, at, CONTENT_OBJECT) {
        return true;
    }
    speech.breaks(s, langs)
}

// The content list and the set list of a programme.
#[tactic(auto, unfolding(crate::specs::steps::Speech::programme_lists_broken, profile::specs::Rules::outside))]
fn programme_lists_break(s: &[u8], contents: Span, sets: Span) -> bool
    ensures { result ≡ programme_lists_broken (sheet_of s.now) contents.first contents.count sets.first sets.count }
{
    let many = count(s, REFERENCES);
    contents.is_beyond(many)
        | sets.is_beyond(many)
        | ((contents.count < 1) | exceeds(s, PROGRAMME_CONTENTS_LIMIT, u64::from(contents.count)))
        | exceeds(s, PROGRAMME_SETS_LIMIT, u64::from(sets.count))
        | any_lacking(s, contents.entries(s), count(s, CONTENTS))
        | any_lacking(s, sets.entries(s), count(s, VALUE_SETS))
}

// Whether a programme may break one of rules 4, 5, 6, 8 and 9.
pub fn programme_breaks(s: &[u8], langs: &Languages, k: u16) -> bool
    ensures { result ≡ false → programme_broken (sheet_of s.now) langs.now k ≡ false }
{
    let at = record_at(s, PROGRAMMES, k);
    if ends_before(s, PROGRAMMES, at) {
        return true;
    }
    let speech = Speech::at(s, at, PROGRAMME_SPEECH);
    if LONGEST < speech.labels.count {
        return true;
    }
    speech.breaks(s, langs)
        | programme_lists_break(s, span_at(s, at, CONTENT_LIST), span_at(s, at, SET_LIST))
}
