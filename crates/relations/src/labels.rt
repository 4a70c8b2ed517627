// Label lists: the one relation that asks which words are languages.
ghost use Rattle.std.specs.Prelude.{◌≡◌};
ghost use Rattle.profile.specs.Rules.{bad_label};
ghost use Rattle.sheet.specs.Words.{sheet_of};

use crate::entries::any_entry;
use languages::list::Languages;

// Whether some entry of the list at a position of a record is no good language.
pub fn bad_label(s: &[u8], langs: &Languages, section: u8, k: u16, at: u8) -> bool
    ensures { result ≡ bad_label (sheet_of s.now) langs.now section k at }
{
    any_entry(s, section, k, at, |e| !langs.good(e))
}
