// The groups of a programme by the leaders of its objects: what this takes goes with the programme's lists, not with the sheet's objects.
// A table has for each leader what was seen of its group: up to a number `seen` nothing in this programme, one more for one object of
// it, two more where the group was asked for. An enum for these would need the table cleared before each programme. That the offsets and
// the table of leaders are right (`Begins`, `Leaders`) is a premise, for the reason that lib.rt of inclusion tells.
ghost use Rattle.std.specs.Prelude.{◌<◌, IsSome, length, ◌≡◌};
ghost use Rattle.grouping.specs.steps.Leaders.{AllAsked, AskedFor};
ghost use Rattle.inclusion.specs.steps.Entering.{Begins};
ghost use Rattle.sheet.specs.Words.{sheet_of};
ghost use Rattle.tables.specs.steps.Right.{Leaders};

use inclusion::SectionOffsets;
use inclusion::entering::object_from;
use inclusion::groups::group_kept;
use inclusion::marks::{at, change};
use sheet::fields::{COMPLEMENT_LIST, CONTENT_LIST, OBJECTS, PROGRAMMES};
use sheet::layout::entry;
use sheet::spans::Span;
use tables::reads::leader_by;

// One object more of a leader's group. At the second one the group is asked for: it has all its members in the programme, or it is not
// kept, so that no group is walked for a member or two.
fn group_asked(
    s: &[u8],
    sections: SectionOffsets,
    included: &[u16],
    seen: u16,
    l: u16,
    groups: &mut [u16],
) -> Option<()>
    requires { seen < 65534 }
    ensures { (length groups.new ≡ length groups.old) × (IsSome result → Begins (sheet_of s.now) sections → AskedFor (sheet_of s.now) included.now seen l groups.old groups.new) }
{
    let h = at(groups, l);
    if seen + 1 < h {
        return Some(());
    }
    if h <= seen {
        return change(groups, l, h, seen + 1);
    }
    if !group_kept(
        s,
        sections,
        included,
        l,
        entry(s, OBJECTS, l, COMPLEMENT_LIST, 0),
    ) {
        return None;
    }
    change(groups, l, h, seen + 2)
}

// The groups of all objects that a programme includes. With programme p `seen` is 2 p, so that what the table has of the programmes
// before counts as nothing.
pub fn groups_asked(
    s: &[u8],
    sections: SectionOffsets,
    leaders: &[u16],
    p: u16,
    included: &[u16],
    groups: &mut [u16],
) -> Option<()>
    ensures { (length groups.new ≡ length groups.old) × (IsSome result → Begins (sheet_of s.now) sections → Leaders (sheet_of s.now) leaders.now → AllAsked (sheet_of s.now) p included.now groups.old groups.new) }
{
    if 32766 < p {
        return None;
    }
    let seen = 2 * p;
    let list = Span::at(s, PROGRAMMES, p, CONTENT_LIST);
    for i in 0..list.count {
        let l = leader_by(s, leaders, object_from(s, sections, list.first, i));
        group_asked(s, sections, included, seen, l, groups)?;
    }
    Some(())
}
