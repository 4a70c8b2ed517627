// Sizes in tracks.
ghost use Rattle.std.specs.Prelude.{◌≡◌};
ghost use Rattle.profile.specs.Relations.{size};
ghost use Rattle.relations.specs.steps.Sizes.{children_tracks, largest_member};
ghost use Rattle.sheet.specs.Words.{sheet_of};

use crate::groups::{member, members};
use crate::objects::has_children;
use profile::counting::sum;
use sheet::fields::{CHILD_LIST, OBJECTS, TRACK_LIST};
use sheet::layout::{entry, number};

// The tracks of an object's children.
#[tactic(auto, unfolding(crate::specs::steps::Sizes::children_tracks))]
pub fn children_tracks(s: &[u8], o: u16) -> u32
    ensures { result ≡ children_tracks (sheet_of s.now) o }
{
    sum(number(s, OBJECTS, o, CHILD_LIST), |i| {
        number(s, OBJECTS, entry(s, OBJECTS, o, CHILD_LIST, i), TRACK_LIST)
    })
}

// "An object's size is its track count, or its children's added up."
#[tactic(auto, unfolding(profile::specs::Relations::size, crate::specs::steps::Sizes::children_tracks))]
pub fn size(s: &[u8], o: u16) -> u32
    ensures { result ≡ size (sheet_of s.now) o }
{
    if has_children(s, o) {
        children_tracks(s, o)
    } else {
        u32::from(number(s, OBJECTS, o, TRACK_LIST))
    }
}

// The size of the largest member of a leader's group. A function for `largest` beside `sum` of profile::counting would have this one
// caller, whose count and numbers take 32 bits.
#[tactic(auto, unfolding(crate::specs::steps::Sizes::largest_member, profile::specs::Counting::largest))]
pub fn largest_member(s: &[u8], l: u16) -> u32
    ensures { result ≡ largest_member (sheet_of s.now) l }
{
    let n = members(s, l);
    let mut most: u32 = 0;
    for i in 0..n {
        // it fits: a group has 65,536 members at most
        most = most.max(size(s, member(s, l, i as u16)));
    }
    most
}
