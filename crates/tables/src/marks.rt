// Passes that mark a table. A record past the table's end is passed over.
ghost use Rattle.std.specs.Prelude.{ℕ, ◌+◌, ◌<◌, eqb, get_or, length, cond, ◌≡◌};
ghost use Rattle.profile.specs.Counting.{how_many};
ghost use Rattle.profile.specs.Relations.{times};
ghost use Rattle.sheet.specs.Words.{sheet_of, word};
ghost use Rattle.tables.specs.steps.Marks.{Filled, MarkedTimes, NamingsCounted, NumbersBelow, Standing, counted_once, first_by, times_by};
ghost use Rattle.tables.specs.steps.Right.{Included, NamedSets};
ghost use Rattle.tables.specs.declared.Naming.TheVariants.{ContentObjects, Included as IncludedObjects};

use crate::Naming;
use crate::namings::{items, namers, place_of};
use sheet::fields::{CONTENT_LIST, CONTENT_OBJECT, CONTENTS, PROGRAMMES};
use sheet::layout::field;
use sheet::spans::{Entries, Span};

// What a count goes to: 0, 1, and 2 for twice or more.
pub fn counted_once(c: u16) -> u16
    ensures { result ≡ counted_once c }
{
    if c == 0 { 1 } else { 2 }
}

// What stands at a place becomes what the mark makes of it.
#[tactic(auto, using(crate::proofs::MarkLaws::mark_standing, crate::proofs::MarkLaws::past_standing))]
pub fn mark_at<F: Fn(u16) -> u16>(table: &mut [u16], x: u32, mark: F)
    requires { x < length table.old → F.pre mark (get_or table.old x 0) }
    ensures { (f : ℕ → ℕ) → NumbersBelow 65536 (F.post mark) f → Filled (λ z. cond (eqb x z) (f (get_or table.old z 0)) (get_or table.old z 0)) table.old table.new }
{
    // std has no From<u32> for usize
    let i = x as usize;
    // std's `get_mut` doesn't say that what is written through it comes back to the slice
    if i < table.len() {
        table[i] = mark(table[i]);
    }
}

// Marks the place that a closure gives of each number below n.
pub fn mark_each<P: Fn(u16) -> u32, F: Fn(u16) -> u16>(n: u16, place: P, mark: F, table: &mut [u16])
    requires places { P.IsAlwaysCallable place }
    requires marks { F.IsAlwaysCallable mark }
    ensures { (g : ℕ → ℕ) → NumbersBelow n (P.post place) g → (f : ℕ → ℕ) → NumbersBelow 65536 (F.post mark) f → MarkedTimes f (λ x. how_many (λ j. eqb (g j) x) n) table.old table.new }
{
    for i in 0..n {
        mark_at(table, place(i), &mark);
    }
}

// Marks the places of a span.
fn mark_span<F: Fn(u16) -> u16>(span: Span, mark: F, table: &mut [u16])
    requires { F.IsAlwaysCallable mark }
    ensures { (f : ℕ → ℕ) → NumbersBelow 65536 (F.post mark) f → MarkedTimes f (λ x. how_many (λ j. eqb (span.first + j) x) span.count) table.old table.new }
{
    mark_each(
        span.count,
        |i| u32::from(span.first) + u32::from(i),
        mark,
        table,
    );
}

// Marks the entries of a list.
pub fn mark_list<F: Fn(u16) -> u16>(s: &[u8], entries: Entries, mark: F, table: &mut [u16])
    requires { F.IsAlwaysCallable mark }
    ensures { (f : ℕ → ℕ) → NumbersBelow 65536 (F.post mark) f → MarkedTimes f (λ x. how_many (λ j. eqb (word (sheet_of s.now) (entries.base + (entries.list.first + j))) x) entries.list.count) table.old table.new }
{
    mark_each(
        entries.list.count,
        |i| u32::from(entries.at(s, i)),
        mark,
        table,
    );
}

// Marks the object that a content names.
pub fn mark_object<F: Fn(u16) -> u16>(s: &[u8], q: u16, mark: F, table: &mut [u16])
    requires { F.IsAlwaysCallable mark }
    ensures { (f : ℕ → ℕ) → NumbersBelow 65536 (F.post mark) f → MarkedTimes f (times_by (sheet_of s.now) ContentObjects q) table.old table.new }
{
    mark_at(
        table,
        u32::from(field(s, CONTENTS, q, CONTENT_OBJECT)),
        mark,
    );
}

// Marks the objects that a programme includes.
pub fn mark_objects<F: Fn(u16) -> u16>(s: &[u8], p: u16, mark: F, table: &mut [u16])
    requires { F.IsAlwaysCallable mark }
    ensures { (f : ℕ → ℕ) → NumbersBelow 65536 (F.post mark) f → MarkedTimes f (times_by (sheet_of s.now) IncludedObjects p) table.old table.new }
{
    let contents = Span::at(s, PROGRAMMES, p, CONTENT_LIST).entries(s);
    let object = |i| u32::from(field(s, CONTENTS, contents.at(s, i), CONTENT_OBJECT));
    mark_each(contents.list.count, object, mark, table);
}

// Marks the entries of the list at a position of a record.
#[tactic(auto, unfolding(profile::specs::Relations::times, sheet::specs::Layout::entry, sheet::specs::Layout::reference))]
fn mark_entries<F: Fn(u16) -> u16>(
    s: &[u8],
    section: u8,
    q: u16,
    at: u8,
    mark: F,
    table: &mut [u16],
)
    requires { F.IsAlwaysCallable mark }
    ensures { (f : ℕ → ℕ) → NumbersBelow 65536 (F.post mark) f → MarkedTimes f (times (sheet_of s.now) section q at) table.old table.new }
{
    mark_list(s, Span::at(s, section, q, at).entries(s), mark, table);
}

// Marks all that a record names.
pub fn mark_items<F: Fn(u16) -> u16>(s: &[u8], kind: Naming, q: u16, mark: F, table: &mut [u16])
    requires { F.IsAlwaysCallable mark }
    ensures { (f : ℕ → ℕ) → NumbersBelow 65536 (F.post mark) f → MarkedTimes f (times_by (sheet_of s.now) kind q) table.old table.new }
{
    let (section, at) = place_of(kind);
    match kind {
        Naming::ContentObjects => mark_object(s, q, mark, table),
        Naming::Included => mark_objects(s, q, mark, table),
        Naming::SetSpans => mark_span(Span::at(s, section, q, at), mark, table),
        _ => mark_entries(s, section, q, at, mark, table),
    }
}

// The same, with nothing to do for a record that names none, as most. `mark_items` has no such test, which would be made for the lists of
// programmes and contents too, that are mostly not empty. Without it, here and in `mark_both` (passes.rt), tried and proved, the check of
// the benchmark's children of one object takes 6.2 % more instructions, where the bar is 5 % (docs/DECISIONS.md, 135).
#[tactic(auto, unfolding(crate::specs::steps::Marks::times_by, profile::specs::Counting::how_many, crate::specs::steps::Marks::repeat))]
pub fn mark_some<F: Fn(u16) -> u16>(s: &[u8], kind: Naming, q: u16, mark: F, table: &mut [u16])
    requires { F.IsAlwaysCallable mark }
    ensures { (f : ℕ → ℕ) → NumbersBelow 65536 (F.post mark) f → MarkedTimes f (times_by (sheet_of s.now) kind q) table.old table.new }
{
    if items(s, kind, q) != 0 {
        mark_items(s, kind, q, mark, table);
    }
}

// Counts how often each record is named.
pub fn count_namings(s: &[u8], kind: Naming, table: &mut [u16])
    ensures { NamingsCounted (sheet_of s.now) kind table.old table.new }
{
    let n = namers(s, kind);
    for q in 0..n {
        mark_items(s, kind, q, counted_once, table);
    }
}

// Writes for each record one more than the number of the first that names it; where none does, what stood there stays.
pub fn first_namers(s: &[u8], kind: Naming, table: &mut [u16])
    ensures { Filled (λ x. first_by (sheet_of s.now) kind x (get_or table.old x 0)) table.old table.new }
{
    for q in (0..namers(s, kind)).rev() {
        mark_some(s, kind, q, |_| q + 1, table);
    }
}

// Writes 0 everywhere.
#[tactic(auto, using(crate::proofs::MarkLaws::nought))]
pub fn clear(table: &mut [u16])
    ensures { Filled (λ x. 0) table.old table.new }
{
    table.fill(0);
}

// Writes 1 for the objects that a programme includes, and 0 for the others: words and no `bool`, since the lent tables serve for counts
// too.
pub fn mark_included(s: &[u8], p: u16, table: &mut [u16])
    ensures { (length table.new ≡ length table.old) × Included (sheet_of s.now) p table.new }
{
    clear(table);
    mark_objects(s, p, |_| 1, table);
}

// Writes 1 for the value sets that a programme names, into a table of noughts.
pub fn mark_named_sets(s: &[u8], p: u16, table: &mut [u16])
    ensures { (length table.new ≡ length table.old) × (Standing (λ x. 0) table.old → NamedSets (sheet_of s.now) p table.new) }
{
    mark_items(s, Naming::SetLists, p, |_| 1, table);
}
