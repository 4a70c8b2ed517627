// What an object's own words and its pack say.
ghost use Rattle.std.specs.Prelude.{◌≡◌};
ghost use Rattle.profile.specs.Relations.{channels, has_children, has_front_pack, has_objects_pack, has_pack, kind, leader, pack_of};
ghost use Rattle.profile.specs.Rules.{lacks};
ghost use Rattle.sheet.specs.Words.{sheet_of};

use sheet::fields::{
    CHILD_LIST, COMPLEMENT_LIST, KIND_OBJECTS, NO_PACK, OBJECT_PACK, OBJECTS, PACK_CHANNELS,
    PACK_FRONT, PACK_KIND, PACKS,
};
use sheet::layout::{count, field, number};

#[tactic(auto, unfolding(profile::specs::Relations::pack_of))]
pub fn pack_of(s: &[u8], o: u16) -> u16
    ensures { result ≡ pack_of (sheet_of s.now) o }
{
    field(s, OBJECTS, o, OBJECT_PACK)
}

#[tactic(auto, unfolding(profile::specs::Relations::has_pack))]
pub fn has_pack(s: &[u8], o: u16) -> bool
    ensures { result ≡ has_pack (sheet_of s.now) o }
{
    pack_of(s, o) != NO_PACK
}

// This and `leader` are the definitions of their names: what they share is the comparison with 0.
#[tactic(auto, unfolding(profile::specs::Relations::has_children))]
pub fn has_children(s: &[u8], o: u16) -> bool
    ensures { result ≡ has_children (sheet_of s.now) o }
{
    0 < number(s, OBJECTS, o, CHILD_LIST)
}

#[tactic(auto, unfolding(profile::specs::Relations::has_objects_pack))]
pub fn has_objects_pack(s: &[u8], o: u16) -> bool
    ensures { result ≡ has_objects_pack (sheet_of s.now) o }
{
    has_pack(s, o) & (field(s, PACKS, pack_of(s, o), PACK_KIND) == KIND_OBJECTS)
}

#[tactic(auto, unfolding(profile::specs::Relations::has_front_pack))]
pub fn has_front_pack(s: &[u8], o: u16) -> bool
    ensures { result ≡ has_front_pack (sheet_of s.now) o }
{
    has_objects_pack(s, o) & (field(s, PACKS, pack_of(s, o), PACK_FRONT) == 1)
}

// `kind` and `channels` are the definitions of their names, each one expression: a function for both would take the word for an object with
// children and a position of a pack, and these two would call it.

// "Its kind is its pack's, or 3 if it has children."
#[tactic(auto, unfolding(profile::specs::Relations::kind))]
pub fn kind(s: &[u8], o: u16) -> u16
    ensures { result ≡ kind (sheet_of s.now) o }
{
    if has_children(s, o) {
        KIND_OBJECTS
    } else {
        field(s, PACKS, pack_of(s, o), PACK_KIND)
    }
}

// How many tracks an object has to have: its pack's channels, "(0 with children)".
#[tactic(auto, unfolding(profile::specs::Relations::channels))]
pub fn channels(s: &[u8], o: u16) -> u16
    ensures { result ≡ channels (sheet_of s.now) o }
{
    if has_children(s, o) {
        0
    } else {
        field(s, PACKS, pack_of(s, o), PACK_CHANNELS)
    }
}

// "a leader (an object with complements)"
#[tactic(auto, unfolding(profile::specs::Relations::leader))]
pub fn leader(s: &[u8], o: u16) -> bool
    ensures { result ≡ leader (sheet_of s.now) o }
{
    0 < number(s, OBJECTS, o, COMPLEMENT_LIST)
}

// A section has no record k.
#[tactic(auto, unfolding(profile::specs::Rules::lacks))]
pub fn lacks(s: &[u8], section: u8, k: u16) -> bool
    ensures { result ≡ lacks (sheet_of s.now) section k }
{
    count(s, section) <= k
}
