// A list or a span, as it stands in a record, and the entries of a list.
ghost use Rattle.std.specs.Prelude.{◌+◌, ltb, ◌≡◌};
ghost use Rattle.sheet.specs.Fields.{references};
ghost use Rattle.sheet.specs.Layout.{field, number, offset};
ghost use Rattle.sheet.specs.Words.{sheet_of, word};

use crate::fields::REFERENCES;
use crate::layout::{offset, start};
use crate::words::word;

// "A list is two words, first and count, into section 6; a set span is the same into section 7."
#[derive(Clone, Copy, PartialEq, Eq)]
pub struct Span {
    pub first: u16,
    pub count: u16,
}

impl Span {
    // The list or span at a position of a record. The record's index is found once for both words.
    #[tactic(auto, unfolding(crate::specs::Layout::field, crate::specs::Layout::number))]
    pub fn at(s: &[u8], section: u8, k: u16, at: u8) -> Span
        ensures first { result.first ≡ field (sheet_of s.now) section k at }
        ensures count { result.count ≡ number (sheet_of s.now) section k at }
    {
        let record = start(s, section, u32::from(k));
        Span {
            first: word(s, record + usize::from(at)),
            count: word(s, record + (usize::from(at) + 1)),
        }
    }

    // The index after its last.
    pub fn end(self) -> u32
        ensures { result ≡ self.first + self.count }
    {
        u32::from(self.first) + u32::from(self.count)
    }

    // Whether it ends beyond a section of so many records.
    pub fn is_beyond(self, many: u16) -> bool
        ensures { result ≡ ltb many (self.first + self.count) }
    {
        u32::from(many) < self.end()
    }

    // The list's entries, which stand in section 6.
    pub fn entries(self, s: &[u8]) -> Entries
        ensures base { result.base ≡ offset (sheet_of s.now) references }
        ensures list { result.list ≡ self }
    {
        Entries {
            base: offset(s, REFERENCES),
            list: self,
        }
    }
}

// The entries of a list in a section whose offset is `base`, which is read once for all of them. The sheet stands beside them, as beside
// all else that is read from it.
#[derive(Clone, Copy)]
pub struct Entries {
    pub base: u16,
    pub list: Span,
}

impl Entries {
    // The entry at a place of the list.
    pub fn at(self, s: &[u8], i: u16) -> u16
        ensures { result ≡ word (sheet_of s.now) (self.base + (self.list.first + i)) }
    {
        word(
            s,
            usize::from(self.base) + (usize::from(self.list.first) + usize::from(i)),
        )
    }
}
