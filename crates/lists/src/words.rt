// The words of a record, by the index of its first word. The index is a u32, which std converts to no usize but by `as`: a usize could
// be one that no position can be added to. It is found once for all words of a record, which `field` and `Span::at` of sheet would each find
// anew; the sheet stands beside it, as beside all that is read from it.
ghost use Rattle.std.specs.Prelude.{◌+◌, ltb, ◌≡◌};
ghost use Rattle.sheet.specs.Layout.{record_words, start};
ghost use Rattle.sheet.specs.Words.{sheet_of, word, word_count};

use sheet::layout::{offset, record_words};
use sheet::spans::Span;
use sheet::words::{word, word_count};

// The index of the first word of the record so many places after another.
#[tactic(auto, unfolding(sheet::specs::Layout::start))]
pub fn record_after(s: &[u8], section: u8, first: u16, i: u16) -> u32
    ensures { result ≡ start (sheet_of s.now) section (first + i) }
{
    u32::from(offset(s, section))
        + (u32::from(first) + u32::from(i)) * u32::from(record_words(section))
}

// The index of the first word of a record.
pub fn record_at(s: &[u8], section: u8, k: u16) -> u32
    ensures { result ≡ start (sheet_of s.now) section k }
{
    record_after(s, section, k, 0)
}

// Whether the sheet ends before the record does. Where it doesn't, no read of one of its words has to test that again.
pub fn ends_before(s: &[u8], section: u8, at: u32) -> bool
    ensures { result ≡ ltb (word_count (sheet_of s.now)) (at + record_words section) }
{
    word_count(s) < at as usize + usize::from(record_words(section))
}

// The word at a position of the record.
pub fn word_at(s: &[u8], at: u32, position: u8) -> u16
    ensures { result ≡ word (sheet_of s.now) (at + position) }
{
    word(s, at as usize + usize::from(position))
}

// How many entries the list or span at a position has.
pub fn number_at(s: &[u8], at: u32, position: u8) -> u16
    ensures { result ≡ word (sheet_of s.now) (at + (position + 1)) }
{
    word(s, at as usize + (usize::from(position) + 1))
}

// The list or span at a position. `Span::at` finds the index of the record, which is known here.
pub fn span_at(s: &[u8], at: u32, position: u8) -> Span
    ensures first { result.first ≡ word (sheet_of s.now) (at + position) }
    ensures count { result.count ≡ word (sheet_of s.now) (at + (position + 1)) }
{
    Span {
        first: word_at(s, at, position),
        count: number_at(s, at, position),
    }
}
