// Counting how often each record is named, by the indices that the records' lists cover: linear in the sheet's words, also where
// many records share one long list. Each list or span is a run of indices.
ghost use Rattle.std.specs.Prelude.{ℕ, ◌+◌, ◌<◌, ◌≤◌, eqb, get_or, length, cond, false, true, ◌≡◌};
ghost use Rattle.profile.specs.Counting.{sum};
ghost use Rattle.sheet.specs.Words.{sheet_of};
ghost use Rattle.tables.specs.steps.Coverage.{Reaching, Tallied, cover, named_at, run_begin, run_end};
ghost use Rattle.tables.specs.steps.Marks.{MarkedTimes, NamingsCounted, NumbersBelow, Standing, counted_once, repeat};
ghost use Rattle.tables.specs.steps.Namings.{namers};

use crate::Naming;
use crate::entry_counts::entries_left;
use crate::marks::{count_namings, counted_once, mark_at, mark_each};
use crate::namings::{items, namers, place_of};
use sheet::fields::{CONTENT_OBJECT, CONTENTS};
use sheet::layout::{field, reference};

// The index at which a record's run begins.
fn run_begin(s: &[u8], kind: Naming, q: u16) -> u16
    ensures { result ≡ run_begin (sheet_of s.now) kind q }
{
    let (section, at) = place_of(kind);
    field(s, section, q, at)
}

// The index after its last.
#[tactic(auto, unfolding(crate::specs::steps::Coverage::run_end))]
fn run_end(s: &[u8], kind: Naming, q: u16) -> u32
    ensures { result ≡ run_end (sheet_of s.now) kind q }
{
    u32::from(run_begin(s, kind, q)) + u32::from(items(s, kind, q))
}

// The record that an index names: itself, or the entry of section 6.
fn named_at(s: &[u8], kind: Naming, y: u16) -> u16
    ensures { result ≡ named_at (sheet_of s.now) kind y }
{
    match kind {
        Naming::ContentObjects | Naming::SetSpans => y,
        Naming::Children | Naming::Complements | Naming::ContentLists | Naming::SetLists => {
            reference(s, u32::from(y))
        }
        Naming::Included => field(s, CONTENTS, reference(s, u32::from(y)), CONTENT_OBJECT),
    }
}

// The cover is worth its tables where the runs have more indices together. What is counted is the same either way.
const FEW_INDICES: u32 = 8192;

// The index after the last of all runs.
fn reach(s: &[u8], kind: Naming) -> u32
    ensures { Reaching (sheet_of s.now) kind result }
{
    let n = namers(s, kind);
    let mut most: u32 = 0;
    for q in 0..n {
        most = most.max(run_end(s, kind, q));
    }
    most
}

// Counts for each index how many of n records have it as the edge that a closure gives, in a table of noughts.
fn tally<F: Fn(u16) -> u32>(n: u16, edge: F, table: &mut [u16])
    requires callable { F.IsAlwaysCallable edge }
    requires noughts { Standing (λ x. 0) table.old }
    ensures { (f : ℕ → ℕ) → NumbersBelow n (F.post edge) f → (length table.new ≡ length table.old) × Tallied f n table.new }
{
    // no more than n are counted at one place, so nothing wraps
    mark_each(n, edge, |c| c.wrapping_add(1), table);
}

// A count that goes on so many times.
#[tactic(auto, unfolding(crate::specs::steps::Marks::repeat))]
fn counted_on(c: u16, times: u32) -> u16
    ensures { result ≡ repeat counted_once times c }
{
    match times {
        0 => c,
        1 => counted_once(c),
        _ => 2,
    }
}

// Counts what the indices below m name, each as often as runs cover it: those that began and have not ended. Both tables are locals of its
// one caller: a struct of the two would be made for this call alone. They are read by number, as `named_at`: with
// `(0..m).zip(begins.iter().zip(ends))`, tried and proved, the loop has as many lines, its answers take 75 lines in place of 39, and the
// sheets of the benchmark up to 0.4 % more instructions.
fn count_indices(s: &[u8], kind: Naming, m: u16, begins: &[u16], ends: &[u16], table: &mut [u16])
    requires { (m ≤ length begins.now) × (m ≤ length ends.now) × Tallied (run_begin (sheet_of s.now) kind) (namers (sheet_of s.now) kind) begins.now × Tallied (run_end (sheet_of s.now) kind) (namers (sheet_of s.now) kind) ends.now }
    ensures { MarkedTimes counted_once (λ x. sum (λ y. cond (eqb (named_at (sheet_of s.now) kind y) x) (cover (sheet_of s.now) kind y) 0) m) table.old table.new }
{
    let mut begun: u32 = 0;
    let mut ended: u32 = 0;
    for y in 0..m {
        begun += u32::from(begins[usize::from(y)]);
        ended += u32::from(ends[usize::from(y)]);
        let times = begun - ended;
        mark_at(
            table,
            u32::from(named_at(s, kind, y)),
            |c| counted_on(c, times),
        );
    }
}

// Counts by the cover of the indices below m.
fn count_cover(s: &[u8], kind: Naming, m: u16, table: &mut [u16])
    requires { (m ≤ 32768) × Reaching (sheet_of s.now) kind m }
    ensures { NamingsCounted (sheet_of s.now) kind table.old table.new }
{
    let n = namers(s, kind);
    let mut begins: [u16; 32768] = [0; 32768];
    tally(n, |q| u32::from(run_begin(s, kind, q)), &mut begins);
    let mut ends: [u16; 32768] = [0; 32768];
    tally(n, |q| run_end(s, kind, q), &mut ends);
    count_indices(s, kind, m, &begins, &ends, table);
}

// Counts how often each record is named. No list of a sheet that keeps rule 4 reaches further than the tables.
pub fn count_covered(s: &[u8], kind: Naming, table: &mut [u16])
    ensures { NamingsCounted (sheet_of s.now) kind table.old table.new }
{
    let left = entries_left(namers(s, kind), FEW_INDICES, |q| {
        u32::from(items(s, kind, q))
    });
    if left.is_none() {
        let m = reach(s, kind);
        if m <= 32768 {
            // it fits: it is 32,768 at most
            count_cover(s, kind, m as u16, table);
            return;
        }
    }
    count_namings(s, kind, table);
}
