// Rules 1 to 3: the sheet's length, edition, level and sections.
ghost use Rattle.std.specs.Prelude.{◌≡◌};
ghost use Rattle.profile.specs.Rules.{rule1, rule2, rule3};
ghost use Rattle.sheet.specs.Words.{sheet_of};

use sheet::layout::{edition, end, level, offset};
use sheet::words::word_count;

#[tactic(auto, unfolding(profile::specs::Rules::rule1, sheet::specs::Words::sheet_of))]
pub fn rule1(s: &[u8], section: u8, k: u16) -> bool
    ensures { result ≡ rule1 (sheet_of s.now) section k }
{
    (s.len() < 32) | (65534 < s.len()) | (s.len() % 2 == 1)
}

#[tactic(auto, unfolding(profile::specs::Rules::rule2))]
pub fn rule2(s: &[u8], section: u8, k: u16) -> bool
    ensures { result ≡ rule2 (sheet_of s.now) section k }
{
    (edition(s) != 1) | (2 < level(s))
}

// A section begins where the one before it ends, the header where there is none.
#[tactic(auto, unfolding(profile::specs::Rules::rule3))]
pub fn rule3(s: &[u8], section: u8, k: u16) -> bool
    ensures { result ≡ rule3 (sheet_of s.now) section k }
{
    (usize::from(offset(s, section)) != end(s, section.saturating_sub(1)))
        | (section == 7) & (end(s, 7) != word_count(s))
}
