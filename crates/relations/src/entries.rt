// The entries of the list at a position of a record, by a test that the caller gives. The list is named by section, record and position, as in
// the definitions `entry`, `number`, `lists` and `times`, which take the three: a struct of them would be built at each call, where section and
// position are constants, and taken apart again to state the contract. Where both words of a list are read, `Span` (sheet) has them,
// and `two_entries` takes its entries, since those who call it have them.
ghost use Rattle.std.specs.Prelude.{ℕ, Bool, ◌+◌, ◌≤◌, ◌≡◌};
ghost use Rattle.profile.specs.Counting.{ComputesBelow, ComputesPairsBelow, any, how_many, two_of};
ghost use Rattle.profile.specs.Relations.{lists, times};
ghost use Rattle.sheet.specs.Layout.{entry, number};
ghost use Rattle.sheet.specs.Words.{sheet_of, word};

use profile::counting::{any, how_many};
use sheet::layout::{entry, number};
use sheet::spans::Entries;

// Whether two entries of a list pass together, the earlier one first.
#[tactic(auto, unfolding(profile::specs::Counting::two_of))]
pub fn two_entries<F: Fn(u16, u16) -> bool>(s: &[u8], entries: Entries, test: F) -> bool
    requires { F.IsAlwaysCallable test }
    ensures { (p : ℕ → ℕ → Bool) → ComputesPairsBelow 65536 (F.post test) p → result ≡ two_of (λ i j. p (word (sheet_of s.now) (entries.base + (entries.list.first + i))) (word (sheet_of s.now) (entries.base + (entries.list.first + j)))) entries.list.count }
{
    any(entries.list.count, |j| {
        let y = entries.at(s, j);
        any(j, |i| test(entries.at(s, i), y))
    })
}

// How many entries pass.
pub fn how_many_entries<F: Fn(u16) -> bool>(s: &[u8], section: u8, k: u16, at: u8, test: F) -> u16
    requires { F.IsAlwaysCallable test }
    ensures counted { (p : ℕ → Bool) → ComputesBelow 65536 (F.post test) p → result ≡ how_many (λ i. p (entry (sheet_of s.now) section k at i)) (number (sheet_of s.now) section k at) }
    ensures at_most { result ≤ number (sheet_of s.now) section k at }
{
    let n = number(s, section, k, at);
    how_many(n, |i| test(entry(s, section, k, at, i)))
}

// Whether some entry passes.
pub fn any_entry<F: Fn(u16) -> bool>(s: &[u8], section: u8, k: u16, at: u8, test: F) -> bool
    requires { F.IsAlwaysCallable test }
    ensures { (p : ℕ → Bool) → ComputesBelow 65536 (F.post test) p → result ≡ any (λ i. p (entry (sheet_of s.now) section k at i)) (number (sheet_of s.now) section k at) }
{
    let n = number(s, section, k, at);
    any(n, |i| test(entry(s, section, k, at, i)))
}

// Whether the list has x.
pub fn lists(s: &[u8], section: u8, k: u16, at: u8, x: u16) -> bool
    ensures { result ≡ lists (sheet_of s.now) section k at x }
{
    any_entry(s, section, k, at, |e| e == x)
}

// How often the list names x.
pub fn times(s: &[u8], section: u8, k: u16, at: u8, x: u16) -> u16
    ensures { (result ≡ times (sheet_of s.now) section k at x) × (result ≤ number (sheet_of s.now) section k at) }
{
    how_many_entries(s, section, k, at, |e| e == x)
}
