// One pass over the references from the end. A reference past the table's end is passed over.
ghost use Rattle.std.specs.Prelude.{ℕ, Bool, ◌+◌, length, ◌≡◌};
ghost use Rattle.profile.specs.Counting.{ComputesBelow};
ghost use Rattle.runs.specs.steps.Runs.{NextRight, KeyRight, stray};
ghost use Rattle.sheet.specs.Layout.{reference};
ghost use Rattle.sheet.specs.Words.{sheet_of};
ghost use Rattle.tables.specs.steps.Marks.{NumbersBelow};

use sheet::fields::{PACK_CHANNELS, PACKS, REFERENCES, TRACK_ORDINAL, TRACK_PACK, TRACKS};
use sheet::layout::{count, field, reference};
use tables::marks::mark_at;

// Whether the track that the reference after y names is of another pack than that of y, or has an ordinal past its pack's channels.
pub fn stray_after(s: &[u8], y: u16) -> bool
    ensures { result ≡ stray (sheet_of s.now) (reference (sheet_of s.now) y) (reference (sheet_of s.now) (y + 1)) }
{
    let e = reference(s, u32::from(y));
    let f = reference(s, u32::from(y) + 1);
    let pack = field(s, TRACKS, f, TRACK_PACK);
    (field(s, TRACKS, e, TRACK_PACK) != pack)
        | (field(s, PACKS, pack, PACK_CHANNELS) <= field(s, TRACKS, f, TRACK_ORDINAL))
}

// Writes for each reference the least index from it on that passes the test; a number past the last where there is none.
pub fn fill_next<F: Fn(u16) -> bool>(s: &[u8], test: F, table: &mut [u16])
    requires { F.IsAlwaysCallable test }
    ensures { (p : ℕ → Bool) → ComputesBelow 65536 (F.post test) p → (length table.new ≡ length table.old) × NextRight (sheet_of s.now) p table.new }
{
    let n = count(s, REFERENCES);
    let mut next = n;
    for y in (0..n).rev() {
        next = if test(y) { y } else { next };
        mark_at(table, u32::from(y), |_| next);
    }
}

// Writes for each reference the least index at which the key that a closure gives stands between the two already; a number past the
// last where there is none. `later` has the least index of each key among those passed.
pub fn fill_repeats<F: Fn(u16) -> u16>(s: &[u8], key: F, table: &mut [u16])
    requires { F.IsAlwaysCallable key }
    ensures { (f : ℕ → ℕ) → NumbersBelow 65536 (F.post key) f → (length table.new ≡ length table.old) × KeyRight (sheet_of s.now) f table.new }
{
    // 65535, which is past the last reference of any sheet, for none: an `Option` of a word takes two words, and this table has one for
    // each of 65,536 keys on the stack
    let mut later: [u16; 65536] = [65535; 65536];
    let mut next: u16 = 65535;
    for y in (0..count(s, REFERENCES)).rev() {
        let before = std::mem::replace(&mut later[usize::from(key(y))], y);
        next = before.min(next);
        mark_at(table, u32::from(y), |_| next);
    }
}
