// Rules 21 and 22 for large sheets: how many programmes from the first on can be seen to keep them, in passes over the programmes. That
// groups have no member in common, and that the programmes before `from` keep both rules, are premises: a public function asks nothing of
// its caller. They are facts of a sheet and a number, which no struct has together here.
ghost use Rattle.std.specs.Prelude.{ℕ, ◌<◌, ◌≤◌, false, true, ◌≡◌};
ghost use Rattle.checker.specs.steps.Kept.{KeptBelow};
ghost use Rattle.grouping.specs.steps.Groups.{GroupsApart, OneSpan};
ghost use Rattle.profile.specs.Rules.{rule21};
ghost use Rattle.sheet.specs.Fields.{complement_list, objects, programmes};
ghost use Rattle.sheet.specs.Layout.{count, number};
ghost use Rattle.sheet.specs.Words.{sheet_of};

use grouping::programmes::kept_from;
use inclusion::SetTables;
use inclusion::alike::fill_alike;
use profile::counting::all;
use sheet::fields::{COMPLEMENT_LIST, OBJECTS, PROGRAMMES, VALUE_SETS};
use sheet::layout::{count, number};
use tables::marks::{count_namings, first_namers};
use tables::reads::all_once;
use tables::{GroupTables, Naming};

// Whether no group has more than two members. Then rule 21 can't be broken: of two members one or all are included.
fn groups_of_two(s: &[u8]) -> bool
    ensures { result ≡ true → (l : ℕ) → l < count (sheet_of s.now) objects → number (sheet_of s.now) objects l complement_list ≤ 1 }
{
    all(
        count(s, OBJECTS),
        |l| number(s, OBJECTS, l, COMPLEMENT_LIST) <= 1,
    )
}

// Whether each value set can be seen to be in one span. No sheet has more than 4,678.
fn sets_once(s: &[u8]) -> bool
    ensures { result ≡ true → OneSpan (sheet_of s.now) }
{
    let mut spanned: [u16; 4680] = [0; 4680];
    count_namings(s, Naming::SetSpans, &mut spanned);
    all_once(&spanned, count(s, VALUE_SETS))
}

// How many programmes from the first on can be seen to keep rule 21, where those before `from` do. No sheet has more than 2,046 objects.
#[inline(never)]
pub fn grouped_programmes(s: &[u8], from: u16) -> u16
    ensures { KeptBelow (sheet_of s.now) from → GroupsApart (sheet_of s.now) → (p : ℕ) → p < result → rule21 (sheet_of s.now) programmes p ≡ false }
{
    let n = count(s, PROGRAMMES);
    if n <= from {
        return from;
    }
    if groups_of_two(s) {
        return n;
    }
    let m = usize::from(count(s, OBJECTS));
    if 2048 < m {
        return from;
    }
    let mut first: [u16; 2048] = [0; 2048];
    let mut second: [u16; 2048] = [0; 2048];
    let mut included: [u16; 2048] = [0; 2048];
    kept_from(
        s,
        from,
        None,
        &mut first[..m],
        &mut second[..m],
        &mut included[..m],
    )
}

// How many can be seen to keep both rules, in one pass for the two. The leaders serve to find sets that are alike; then their table is one
// of those that the pass writes.
#[inline(never)]
pub fn kept_programmes(s: &[u8]) -> u16
    ensures { GroupsApart (sheet_of s.now) → KeptBelow (sheet_of s.now) result }
{
    let m = usize::from(count(s, OBJECTS));
    if (2048 < m) || !sets_once(s) {
        return 0;
    }
    let mut owners: [u16; 4680] = [0; 4680];
    first_namers(s, Naming::SetSpans, &mut owners);
    let mut leaders: [u16; 2048] = [0; 2048];
    first_namers(s, Naming::Complements, &mut leaders);
    let mut alike: [u16; 4680] = [0; 4680];
    let groups = GroupTables {
        owners: &owners,
        leaders: &leaders,
    };
    fill_alike(s, &groups, &mut alike);
    let mut second: [u16; 2048] = [0; 2048];
    let mut included: [u16; 2048] = [0; 2048];
    let sets = SetTables {
        owners: &owners,
        alike: &alike,
    };
    kept_from(
        s,
        0,
        Some(sets),
        &mut leaders[..m],
        &mut second[..m],
        &mut included[..m],
    )
}
