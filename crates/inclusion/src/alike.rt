// Value sets with the same words, in a table by set: one more than the set that stands for it, 0 where it stands for itself.
ghost use Rattle.std.specs.Prelude.{◌<◌, length, false, ◌≡◌};
ghost use Rattle.inclusion.specs.steps.Alike.{Alike, representative};
ghost use Rattle.profile.specs.Rules.{sets_differ};
ghost use Rattle.sheet.specs.Fields.{value_sets};
ghost use Rattle.sheet.specs.Layout.{offset};
ghost use Rattle.sheet.specs.Words.{sheet_of};
ghost use Rattle.tables.specs.steps.Marks.{Standing};

use crate::marks::told_at;
use crate::sets::sets_differ;
use sheet::fields::{OBJECTS, SET_SPAN, VALUE_SETS};
use sheet::layout::{count, offset};
use sheet::spans::Span;
use tables::GroupTables;
use tables::marks::mark_at;

// The set that stands for a set.
#[tactic(auto, unfolding(crate::specs::steps::Alike::representative), using(tables::proofs::TableLaws::told_by))]
pub fn representative(alike: &[u16], v: u16) -> u16
    ensures { result ≡ representative alike.now v }
{
    told_at(alike, v).unwrap_or(v)
}

// The first set with the words of v among the sets of a span, of which 8 at most are tried; v where there is none. Section 7 begins at
// `base`.
#[tactic(auto, using(profile::proofs::SetLaws::sets_own))]
fn first_alike(s: &[u8], base: u16, span: Span, v: u16) -> u16
    ensures { (v < 65535 → result < 65535) × (base ≡ offset (sheet_of s.now) value_sets → sets_differ (sheet_of s.now) result v ≡ false) }
{
    for u in span.first..span.first.saturating_add(span.count.min(8)) {
        if !sets_differ(s, base, u, v) {
            return u;
        }
    }
    v
}

// The same with the span of the object that stands for the owner of v, the leader of its group.
#[tactic(auto, using(profile::proofs::SetLaws::sets_own))]
fn leader_alike(s: &[u8], base: u16, tables: &GroupTables, v: u16) -> u16
    ensures { (v < 65535 → result < 65535) × (base ≡ offset (sheet_of s.now) value_sets → sets_differ (sheet_of s.now) result v ≡ false) }
{
    let Some(owner) = told_at(tables.owners, v) else {
        return v;
    };
    let l = representative(tables.leaders, owner);
    first_alike(s, base, Span::at(s, OBJECTS, l, SET_SPAN), v)
}

// Writes the sets that stand for others into a table of noughts, by the owners of the sets and the leaders of the objects. It can be told
// by the words alone that they do: where these tables are wrong, fewer sets stand for others.
pub fn fill_alike(s: &[u8], groups: &GroupTables, table: &mut [u16])
    ensures { (length table.new ≡ length table.old) × (Standing (λ x. 0) table.old → Alike (sheet_of s.now) table.new) }
{
    let base = offset(s, VALUE_SETS);
    let n = count(s, VALUE_SETS);
    for v in 0..n {
        let more = leader_alike(s, base, groups, v) + 1;
        mark_at(table, u32::from(v), |_| more);
    }
}
