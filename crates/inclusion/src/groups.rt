// The groups of a sheet, by what a table has for their members: 0 for an object that the programme does not include, 1 for one that it
// includes, and where it names a set for it, 2 more than the number of that set. An enum of the three would take two words where the table
// has one, and the tables are fixed memory that serves for counts as well. `Begins` is a premise, for the reason that lib.rt tells. The
// sheet, the offsets and the table of what is included are lent to these few functions beside one another, and not as a struct: the table
// is written anew for each programme, so that such a struct would be made for each call.
ghost use Rattle.std.specs.Prelude.{ℕ, IsSome, ◌+◌, ◌-◌, ◌<◌, ◌≤◌, get_or, length, false, true, ◌⊎◌, ◌≡◌};
ghost use Rattle.inclusion.specs.steps.Groups.{GroupKept, ListKept, ListsComplements, PairKept, many_listed};
ghost use Rattle.inclusion.specs.steps.Entering.{Begins};
ghost use Rattle.inclusion.specs.steps.Rows.{HasListed, OnlyComplement, RowAdded, RowsComplete, SameLists};
ghost use Rattle.profile.specs.Rules.{sets_differ};
ghost use Rattle.sheet.specs.Fields.{objects, value_sets};
ghost use Rattle.sheet.specs.Layout.{count, offset};
ghost use Rattle.sheet.specs.Words.{sheet_of};

use crate::lists::ends_before;
use crate::marks::at;
use crate::sets::sets_differ;
use crate::{Rows, SectionOffsets};
use sheet::fields::{COMPLEMENT_LIST, OBJECTS};
use sheet::layout::{count, entry, number};
use sheet::spans::{Entries, Span};

// Whether the sets of two members may differ, by what the table has for them; either may have none.
#[tactic(auto, using(profile::proofs::SetLaws::sets_own))]
fn noted_differ(s: &[u8], sets: u16, e: u16, c: u16) -> bool
    ensures { result ≡ false → sets ≡ offset (sheet_of s.now) value_sets → 1 < e → 1 < c → sets_differ (sheet_of s.now) (e - 2) (c - 2) ≡ false }
{
    (e != c) && (1 < e) && (1 < c) && sets_differ(s, sets, e - 2, c - 2)
}

// The complements of a leader, where section 6 begins at `base`.
fn complements(s: &[u8], base: u16, l: u16) -> Entries
    ensures { ListsComplements (sheet_of s.now) base l result }
{
    Entries {
        base,
        list: Span::at(s, OBJECTS, l, COMPLEMENT_LIST),
    }
}

// Of a group whose leader has e in the table, and whose complements are these: all members are included, sets are named for all or none,
// and those of the complements have the words of the leader's. Section 7 begins at `sets`.
fn members_kept(s: &[u8], sets: u16, others: Entries, included: &[u16], e: u16) -> bool
    ensures { result ≡ true → sets ≡ offset (sheet_of s.now) value_sets → ListKept (sheet_of s.now) included.now others.base others.list.first others.list.count e }
{
    if ends_before(s, others) {
        return false;
    }
    let mut many = u32::from(e != 0);
    let mut noted = u32::from(1 < e);
    for i in 0..others.list.count {
        let c = at(included, others.at(s, i));
        if noted_differ(s, sets, e, c) {
            return false;
        }
        many += u32::from(c != 0);
        noted += u32::from(1 < c);
    }
    let all = u32::from(others.list.count) + 1;
    (many == all) & ((noted == 0) | (noted == all))
}

// A group of two, by what the table has for both.
fn pair_kept(s: &[u8], sets: u16, e: u16, c: u16) -> bool
    ensures { result ≡ true → sets ≡ offset (sheet_of s.now) value_sets → PairKept (sheet_of s.now) e c }
{
    (e == c) || (e == 0) || (c == 0) || ((e != 1) && (c != 1) && !noted_differ(s, sets, e, c))
}

// The group of a leader of which two members or more are included; m is its complement where it has one.
pub fn group_kept(s: &[u8], sections: SectionOffsets, included: &[u16], l: u16, m: u16) -> bool
    ensures { result ≡ true → Begins (sheet_of s.now) sections → OnlyComplement (sheet_of s.now) l m → GroupKept (sheet_of s.now) included.now l }
{
    let others = complements(s, sections.references, l);
    let e = at(included, l);
    if others.list.count == 1 {
        return pair_kept(s, sections.sets, e, at(included, m));
    }
    members_kept(s, sections.sets, others, included, e)
}

// Whether of such a group one member at most is included.
fn one_included(s: &[u8], others: Entries, included: &[u16], e: u16) -> bool
    ensures { result ≡ true → many_listed (sheet_of s.now) included.now others.base others.list.first others.list.count e ≤ 1 }
{
    let mut many = u32::from(e != 0);
    for i in 0..others.list.count {
        many += u32::from(at(included, others.at(s, i)) != 0);
    }
    many <= 1
}

// The group of a leader that has m as a complement. Where one of the two is not included, all are not, so that one member at most may be.
// A call of `group_kept` in place of what it does took 39,000 instructions more on the largest honest sheet, 3.7 % of its check, where the
// bar is 2 % (docs/DECISIONS.md, 135).
fn row_kept(s: &[u8], sections: SectionOffsets, included: &[u16], l: u16, m: u16) -> bool
    ensures { result ≡ true → Begins (sheet_of s.now) sections → OnlyComplement (sheet_of s.now) l m → GroupKept (sheet_of s.now) included.now l }
{
    let others = complements(s, sections.references, l);
    let e = at(included, l);
    let c = at(included, m);
    if (e == 0) | (c == 0) {
        return one_included(s, others, included, e);
    }
    if others.list.count == 1 {
        return pair_kept(s, sections.sets, e, c);
    }
    members_kept(s, sections.sets, others, included, e)
}

// Whether a row says nothing against the group of its leader: the table has one number for both, or the group was asked for last.
fn row_passes(included: &[u16], asked: u32, l: u16, m: u16) -> bool
    ensures { result ≡ true → (get_or included.now l 0 ≡ get_or included.now m 0) ⊎ (l ≡ asked) }
{
    (at(included, l) == at(included, m)) || (u32::from(l) == asked)
}

// The groups of all leaders, by g rows, each a leader and a complement. A group is asked for only where the table has two numbers for a
// row. It stands below the method, since `Rows` asks for lists that can be written, and this takes lists that are only read.
pub fn groups_kept(
    s: &[u8],
    sections: SectionOffsets,
    leading: &[u16],
    partners: &[u16],
    g: u16,
    included: &[u16],
) -> bool
    ensures { result ≡ true → Begins (sheet_of s.now) sections → RowsComplete (sheet_of s.now) leading.now partners.now g → (l : ℕ) → l < count (sheet_of s.now) objects → GroupKept (sheet_of s.now) included.now l }
{
    let n = usize::from(g);
    if (leading.len() < n) || (partners.len() < n) {
        return false;
    }
    // 65536 for none, and places by number: with an `Option` and `zip`, tried and proved, a row takes 19 instructions in place of 16, and
    // the sheets with one of each group of 3 or 4 take 13 % more, where 5 % is the bar
    let mut asked: u32 = 65536;
    for i in 0..n {
        let l = leading[i];
        let m = partners[i];
        if !row_passes(included, asked, l, m) {
            if !row_kept(s, sections, included, l, m) {
                return false;
            }
            asked = u32::from(l);
        }
    }
    true
}

impl<'a> Rows<'a> {
    // The groups of all leaders, by these rows.
    pub fn groups_kept(&self, s: &[u8], sections: SectionOffsets, included: &[u16]) -> bool
        ensures { result ≡ true → Begins (sheet_of s.now) sections → RowsComplete (sheet_of s.now) self.now.leading.now self.now.partners.now self.now.count → (l : ℕ) → l < count (sheet_of s.now) objects → GroupKept (sheet_of s.now) included.now l }
    {
        groups_kept(
            s,
            sections,
            self.leading,
            self.partners,
            self.count,
            included,
        )
    }

    // A row more, where there is a place for it.
    fn push(&mut self, l: u16, m: u16) -> Option<()>
        ensures { SameLists self.old self.new × (IsSome result → RowAdded self.old self.new l m) }
    {
        let i = usize::from(self.count);
        if (self.leading.len() <= i) || (self.partners.len() <= i) {
            return None;
        }
        let count = self.count.checked_add(1)?;
        self.leading[i] = l;
        self.partners[i] = m;
        self.count = count;
        Some(())
    }

    // A row for each complement of an object, as long as there is place.
    fn push_group(&mut self, s: &[u8], l: u16) -> Option<()>
        ensures { SameLists self.old self.new × (IsSome result → HasListed (sheet_of s.now) self.old l 0 → HasListed (sheet_of s.now) self.new (l + 1) 0) }
    {
        let n = number(s, OBJECTS, l, COMPLEMENT_LIST);
        for j in 0..n {
            self.push(l, entry(s, OBJECTS, l, COMPLEMENT_LIST, j))?;
        }
        Some(())
    }

    // Lists each leader with each of its complements, where there is place for them, in place of what was listed.
    pub fn list(&mut self, s: &[u8]) -> Option<()>
        ensures { SameLists self.old self.new × (IsSome result → RowsComplete (sheet_of s.now) self.new.leading.now self.new.partners.now self.new.count) }
    {
        self.count = 0;
        for l in 0..count(s, OBJECTS) {
            self.push_group(s, l)?;
        }
        Some(())
    }
}
