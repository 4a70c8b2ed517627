// Objects and value sets that differ in some of their words.
ghost use Rattle.std.specs.Prelude.{◌≤◌, ◌≡◌};
ghost use Rattle.profile.specs.Rules.{differs, sets_differ};
ghost use Rattle.rules.specs.steps.Loops.{fields_differ};
ghost use Rattle.sheet.specs.Words.{sheet_of};

use relations::objects::kind;
use sheet::fields::{INTERACT, OBJECTS, SET_GAIN, VALUE_SETS};
use sheet::layout::field;

// Whether two records of a section differ in one of the seven words from a position on. Three places compare these words by other ways:
// inclusion, which does not stand on rules, compares two value sets as slices of the sheet, and may say that one past its end differs;
// screen reads the words of its `ObjectWords`, as all words of an object; figures tells which word differs.
#[tactic(auto, unfolding(crate::specs::steps::Loops::fields_differ, profile::specs::Counting::any))]
fn fields_differ(s: &[u8], section: u8, from: u8, a: u16, b: u16) -> bool
    requires { from ≤ 7 }
    ensures { result ≡ fields_differ (sheet_of s.now) section from a b }
{
    let mut found = false;
    for f in 0..7 {
        found |= field(s, section, a, from + f) != field(s, section, b, from + f);
    }
    found
}

// A leader differs from a member in interact, gain, offset, the four range words or kind.
#[tactic(auto, unfolding(profile::specs::Rules::differs, crate::specs::steps::Loops::fields_differ))]
pub fn differs(s: &[u8], l: u16, q: u16) -> bool
    ensures { result ≡ differs (sheet_of s.now) l q }
{
    fields_differ(s, OBJECTS, INTERACT, l, q) | (kind(s, l) != kind(s, q))
}

// Two sets differ in any of seven words.
#[tactic(auto, unfolding(profile::specs::Rules::sets_differ, crate::specs::steps::Loops::fields_differ))]
pub fn sets_differ(s: &[u8], u: u16, v: u16) -> bool
    ensures { result ≡ sets_differ (sheet_of s.now) u v }
{
    fields_differ(s, VALUE_SETS, SET_GAIN, u, v)
}
