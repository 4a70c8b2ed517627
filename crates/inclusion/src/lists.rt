// Lists of section 6, by an offset of the section that is lent.
ghost use Rattle.std.specs.Prelude.{◌+◌, ltb, ◌≡◌};
ghost use Rattle.sheet.specs.Words.{sheet_of, word_count};

use sheet::spans::Entries;
use sheet::words::word_count;

// Whether the sheet ends before a list does. Where it doesn't, no read of one of its entries has to test that again.
pub fn ends_before(s: &[u8], entries: Entries) -> bool
    ensures { result ≡ ltb (word_count (sheet_of s.now)) (entries.base + (entries.list.first + entries.list.count)) }
{
    // std has no From<u32> for usize
    word_count(s) < usize::from(entries.base) + entries.list.end() as usize
}
