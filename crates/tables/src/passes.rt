// Passes over all records of a section that count what they name, some in several tables at once.
ghost use Rattle.std.specs.Prelude.{suc, ◌<◌, ◌≡◌};
ghost use Rattle.sheet.specs.Words.{sheet_of};
ghost use Rattle.tables.specs.steps.Marks.{MarkedTimes, counted_once, first_stored, times_by};
ghost use Rattle.tables.specs.steps.Passes.{ListsCounted, TopsCounted};

use crate::Naming;
use crate::marks::{count_namings, counted_once, mark_items, mark_some};
use crate::namings::items;
use sheet::fields::OBJECTS;
use sheet::layout::count;

// Counts how often contents name each object, in two tables.
pub fn count_tops(s: &[u8], tops: &mut [u16], named: &mut [u16])
    ensures { TopsCounted (sheet_of s.now) tops.old named.old tops.new named.new }
{
    count_namings(s, Naming::ContentObjects, tops);
    count_namings(s, Naming::ContentObjects, named);
}

// A number where 0 stands, which is for none, else what stands there: no `Option` stands in a table of words.
fn first_stored(v: u16, c: u16) -> u16
    ensures { result ≡ first_stored v c }
{
    if c == 0 { v } else { c }
}

// Counts the records that a record names, mostly none, and keeps its own number, one more, where it is the first to name one. With
// `mark_some` for each of the two tables the test would be made twice; what it saves is told there (marks.rt).
fn mark_both(s: &[u8], kind: Naming, q: u16, counts: &mut [u16], firsts: &mut [u16])
    requires { q < 65535 }
    ensures { MarkedTimes counted_once (times_by (sheet_of s.now) kind q) counts.old counts.new × MarkedTimes (first_stored (suc q)) (times_by (sheet_of s.now) kind q) firsts.old firsts.new }
{
    if items(s, kind, q) != 0 {
        mark_items(s, kind, q, counted_once, counts);
        mark_items(s, kind, q, |c| first_stored(q + 1, c), firsts);
    }
}

// Counts how often child lists and complement lists name each object, and in how many spans each value set is; and writes for each
// value set one more than the number of its object, into a table of noughts.
pub fn count_lists(
    s: &[u8],
    named: &mut [u16],
    complements: &mut [u16],
    spanned: &mut [u16],
    owners: &mut [u16],
)
    ensures { ListsCounted (sheet_of s.now) named.old complements.old spanned.old owners.old named.new complements.new spanned.new owners.new }
{
    let n = count(s, OBJECTS);
    for q in 0..n {
        mark_some(s, Naming::Children, q, counted_once, named);
        mark_some(s, Naming::Complements, q, counted_once, complements);
        mark_both(s, Naming::SetSpans, q, spanned, owners);
    }
}
