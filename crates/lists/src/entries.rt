// What the screening asks of the entries of a list: each function but `labels_rise` is one call of `any` or `two_entries` with a test of its
// own, as its definition is. The sheet stands beside the entries, as beside all that is read from it.
ghost use Rattle.std.specs.Prelude.{false, true, ◌≡◌};
ghost use Rattle.profile.specs.Counting.{any, two_of};
ghost use Rattle.lists.specs.steps.Entries.{bad_child_at, lacking_at, no_language_at, out_of_order_at, same_at};
ghost use Rattle.sheet.specs.Words.{sheet_of};

use languages::list::Languages;
use profile::counting::any;
use relations::entries::two_entries;
use relations::objects::has_objects_pack;
use sheet::fields::{TRACK_ORDINAL, TRACK_PACK, TRACKS};
use sheet::layout::{count, field};
use sheet::spans::Entries;

// Whether some entry names an index that a section of so many records lacks.
#[tactic(auto, unfolding(crate::specs::steps::Entries::entry_at, crate::specs::steps::Entries::lacking_at))]
pub fn any_lacking(s: &[u8], entries: Entries, many: u16) -> bool
    ensures { result ≡ any (lacking_at (sheet_of s.now) entries.base entries.list.first many) entries.list.count }
{
    any(entries.list.count, |i| many <= entries.at(s, i))
}

// Whether some entry is no good language.
#[tactic(auto, unfolding(crate::specs::steps::Entries::entry_at, crate::specs::steps::Entries::no_language_at))]
pub fn any_no_language(s: &[u8], entries: Entries, langs: &Languages) -> bool
    ensures { result ≡ any (no_language_at (sheet_of s.now) langs.now entries.base entries.list.first) entries.list.count }
{
    any(entries.list.count, |i| !langs.good(entries.at(s, i)))
}

// Whether two places have the same entry.
pub fn any_twice(s: &[u8], entries: Entries) -> bool
    ensures { result ≡ two_of (same_at (sheet_of s.now) entries.base entries.list.first) entries.list.count }
{
    two_entries(s, entries, |x, y| x == y)
}

// Whether the entries are good languages and each is above the one before; then none comes twice.
#[tactic(auto, unfolding(profile::specs::Counting::any, profile::specs::Counting::two_of), using(crate::proofs::RisingLaws::below_none))]
pub fn labels_rise(s: &[u8], entries: Entries, langs: &Languages) -> bool
    ensures { result ≡ true → (any (no_language_at (sheet_of s.now) langs.now entries.base entries.list.first) entries.list.count ≡ false) × (two_of (same_at (sheet_of s.now) entries.base entries.list.first) entries.list.count ≡ false) }
{
    let mut last = 0;
    for i in 0..entries.list.count {
        let x = entries.at(s, i);
        if (x <= last) | !langs.good(x) {
            return false;
        }
        last = x;
    }
    true
}

// Whether some entry is no track, a track of another pack, or one whose ordinal is not its place in the list.
#[tactic(auto, unfolding(crate::specs::steps::Entries::entry_at, crate::specs::steps::Entries::out_of_order_at))]
pub fn any_out_of_order(s: &[u8], entries: Entries, pack: u16) -> bool
    ensures { result ≡ any (out_of_order_at (sheet_of s.now) entries.base entries.list.first pack) entries.list.count }
{
    let many = count(s, TRACKS);
    any(entries.list.count, |i| {
        let t = entries.at(s, i);
        (many <= t)
            | (field(s, TRACKS, t, TRACK_PACK) != pack)
            | (field(s, TRACKS, t, TRACK_ORDINAL) != i)
    })
}

// Whether some entry is no object, or one without a pack of kind 3.
#[tactic(auto, unfolding(crate::specs::steps::Entries::entry_at, crate::specs::steps::Entries::bad_child_at))]
pub fn any_bad_child(s: &[u8], entries: Entries, many: u16) -> bool
    ensures { result ≡ any (bad_child_at (sheet_of s.now) entries.base entries.list.first many) entries.list.count }
{
    any(entries.list.count, |i| {
        let e = entries.at(s, i);
        (many <= e) | !has_objects_pack(s, e)
    })
}
