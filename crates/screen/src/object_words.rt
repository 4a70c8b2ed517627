// The words of an object, read by the index of the first one.
ghost use Rattle.std.specs.Prelude.{ltb, ◌+◌, ◌≡◌};
ghost use Rattle.sheet.specs.Fields.{objects};
ghost use Rattle.sheet.specs.Layout.{field, first, number, record_words, start};
ghost use Rattle.sheet.specs.Words.{sheet_of, word_count};

use lists::words::{ends_before, number_at, record_at, span_at, word_at};
use sheet::fields::OBJECTS;
use sheet::spans::Span;

// An object, with the index of its first word.
#[derive(Clone, Copy)]
pub(crate) struct ObjectWords<'a> {
    pub s: &'a [u8],
    pub o: u16,
    pub at: u32,
    ghost begins: { at ≡ start (sheet_of s.now) objects o },
}

impl<'a> ObjectWords<'a> {
    pub(crate) fn new(s: &'a [u8], o: u16) -> ObjectWords<'a>
        ensures sheet { result.s.now ≡ s.now }
        ensures object { result.o ≡ o }
    {
        ObjectWords {
            s,
            o,
            at: record_at(s, OBJECTS, o),
        }
    }

    // Whether the sheet ends before the object does.
    pub(crate) fn is_cut(&self) -> bool
        ensures { result ≡ ltb (word_count (sheet_of self.now.s.now)) (start (sheet_of self.now.s.now) objects self.now.o + record_words objects) }
    {
        ends_before(self.s, OBJECTS, self.at)
    }

    // The word at a position.
    #[tactic(auto, unfolding(sheet::specs::Layout::field))]
    pub(crate) fn word(&self, position: u8) -> u16
        ensures { result ≡ field (sheet_of self.now.s.now) objects self.now.o position }
    {
        word_at(self.s, self.at, position)
    }

    // How many entries the list or span at a position has.
    #[tactic(auto, unfolding(sheet::specs::Layout::field, sheet::specs::Layout::number))]
    pub(crate) fn number(&self, position: u8) -> u16
        ensures { result ≡ number (sheet_of self.now.s.now) objects self.now.o position }
    {
        number_at(self.s, self.at, position)
    }

    // The list or span at a position.
    #[tactic(auto, unfolding(sheet::specs::Layout::field, sheet::specs::Layout::number))]
    pub(crate) fn span(&self, position: u8) -> Span
        ensures first { result.first ≡ first (sheet_of self.now.s.now) objects self.now.o position }
        ensures count { result.count ≡ number (sheet_of self.now.s.now) objects self.now.o position }
    {
        span_at(self.s, self.at, position)
    }
}
