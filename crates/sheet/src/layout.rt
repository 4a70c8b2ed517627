// Sections, records and lists. The section, the record and the position stand as three parameters, as in the definitions of the same names:
// section and position are mostly constants at the call, and a struct of the three would be made for one read.
ghost use Rattle.std.specs.Prelude.{◌*◌, ◌+◌, ◌<◌, ◌≡◌};
ghost use Rattle.sheet.specs.Layout.{count, edition, end, entry, field, level, number, offset, record_words, reference, start};
ghost use Rattle.sheet.specs.Words.{sheet_of};

use crate::fields::REFERENCES;
use crate::words::word;

// Words of a record, by section, in a table, as the definition has them.
const RECORD_WORDS: [u8; 8] = [16, 8, 5, 16, 3, 2, 1, 7];

pub fn edition(s: &[u8]) -> u16
    ensures { result ≡ edition (sheet_of s.now) }
{
    word(s, 0)
}

pub fn level(s: &[u8]) -> u16
    ensures { result ≡ level (sheet_of s.now) }
{
    word(s, 1)
}

// How many records a section has.
#[tactic(auto, unfolding(crate::specs::Layout::count))]
pub fn count(s: &[u8], section: u8) -> u16
    ensures { result ≡ count (sheet_of s.now) section }
{
    word(s, 2 * usize::from(section))
}

#[tactic(auto, unfolding(crate::specs::Layout::offset))]
pub fn offset(s: &[u8], section: u8) -> u16
    ensures { result ≡ offset (sheet_of s.now) section }
{
    word(s, 2 * usize::from(section) + 1)
}

// Words of a record of a section, 0 for a number that is no section.
#[tactic(auto, unfolding(crate::specs::Layout::record_words))]
pub fn record_words(section: u8) -> u8
    ensures { result ≡ record_words section }
{
    RECORD_WORDS.get(usize::from(section)).copied().unwrap_or(0)
}

// The index of record k, where records of `words` words begin at `from`. A u32 becomes a usize by `as`: std has no `From` for the two.
#[tactic(auto, using(crate::proofs::IndexLaws::records_fit))]
fn record_index(from: u16, k: u32, words: u8) -> usize
    ensures { (result ≡ from + k * words) × (result < 2199023255552) }
{
    usize::from(from) + (k as usize) * usize::from(words)
}

// The index of a record's first word.
#[tactic(auto, unfolding(crate::specs::Layout::start))]
pub fn start(s: &[u8], section: u8, k: u32) -> usize
    ensures { (result ≡ start (sheet_of s.now) section k) × (result < 2199023255552) }
{
    record_index(offset(s, section), k, record_words(section))
}

// The end of a section in words, exact; the header ends at 16.
#[tactic(auto, unfolding(crate::specs::Layout::end))]
pub fn end(s: &[u8], section: u8) -> usize
    ensures { result ≡ end (sheet_of s.now) section }
{
    if section == 0 {
        16
    } else {
        start(s, section, u32::from(count(s, section)))
    }
}

// The word at position `at` of a record whose number may be past 65535, as a sum of two words may be. `field` is the same for a number
// that is a word. One function for both would take any type that becomes a u32, and its contract would have to say which number that is.
#[tactic(auto, unfolding(crate::specs::Layout::field))]
pub fn wide_field(s: &[u8], section: u8, k: u32, at: u8) -> u16
    ensures { result ≡ field (sheet_of s.now) section k at }
{
    word(s, start(s, section, k) + usize::from(at))
}

// The word at position `at` of a record.
pub fn field(s: &[u8], section: u8, k: u16, at: u8) -> u16
    ensures { result ≡ field (sheet_of s.now) section k at }
{
    wide_field(s, section, u32::from(k), at)
}

// How many entries the list or span at position `at` of a record has.
#[tactic(auto, unfolding(crate::specs::Layout::field, crate::specs::Layout::number))]
pub fn number(s: &[u8], section: u8, k: u16, at: u8) -> u16
    ensures { result ≡ number (sheet_of s.now) section k at }
{
    word(s, start(s, section, u32::from(k)) + (usize::from(at) + 1))
}

// The entry at an index of section 6.
#[tactic(auto, unfolding(crate::specs::Layout::reference))]
pub fn reference(s: &[u8], i: u32) -> u16
    ensures { result ≡ reference (sheet_of s.now) i }
{
    word(s, usize::from(offset(s, REFERENCES)) + i as usize)
}

// Entry i of the list at position `at` of a record.
#[tactic(auto, unfolding(crate::specs::Layout::entry))]
pub fn entry(s: &[u8], section: u8, k: u16, at: u8, i: u16) -> u16
    ensures { result ≡ entry (sheet_of s.now) section k at i }
{
    reference(s, u32::from(field(s, section, k, at)) + u32::from(i))
}
