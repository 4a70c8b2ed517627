// Complementary groups.
ghost use Rattle.std.specs.Prelude.{◌≤◌, ◌≡◌};
ghost use Rattle.profile.specs.Relations.{leader_of, member, members};
ghost use Rattle.sheet.specs.Words.{sheet_of};

use crate::entries::lists;
use crate::records::complement;
use profile::counting::lowest;
use sheet::fields::{COMPLEMENT_LIST, OBJECTS};
use sheet::layout::{count, entry, number};

// "A group is a leader [..] followed by those it lists." Member i of a leader's group.
#[tactic(auto, unfolding(profile::specs::Relations::member))]
pub fn member(s: &[u8], l: u16, i: u16) -> u16
    ensures { result ≡ member (sheet_of s.now) l i }
{
    if i == 0 {
        l
    } else {
        entry(s, OBJECTS, l, COMPLEMENT_LIST, i - 1)
    }
}

// How many members the group has.
#[tactic(auto, unfolding(profile::specs::Relations::members))]
pub fn members(s: &[u8], l: u16) -> u32
    ensures { (result ≡ members (sheet_of s.now) l) × (result ≤ 65536) }
{
    u32::from(number(s, OBJECTS, l, COMPLEMENT_LIST)) + 1
}

// The leader of an object's group: the object that lists it, else itself.
#[tactic(auto, unfolding(profile::specs::Relations::leader_of))]
pub fn leader_of(s: &[u8], o: u16) -> u16
    ensures { result ≡ leader_of (sheet_of s.now) o }
{
    if complement(s, o) {
        lowest(
            count(s, OBJECTS),
            |l| lists(s, OBJECTS, l, COMPLEMENT_LIST, o),
        )
    } else {
        o
    }
}
