// Objects by what names them.
ghost use Rattle.std.specs.Prelude.{◌≡◌};
ghost use Rattle.profile.specs.Relations.{complement, groups, owner, top};
ghost use Rattle.sheet.specs.Words.{sheet_of};

use crate::entries::lists;
use crate::objects::leader;
use crate::sets::has_set;
use profile::counting::{any, how_many, lowest};
use sheet::fields::{COMPLEMENT_LIST, CONTENT_OBJECT, CONTENTS, OBJECTS};
use sheet::layout::{count, field};

// "A top object is one that a content names."
#[tactic(auto, unfolding(profile::specs::Relations::top))]
pub fn top(s: &[u8], o: u16) -> bool
    ensures { result ≡ top (sheet_of s.now) o }
{
    any(
        count(s, CONTENTS),
        |c| field(s, CONTENTS, c, CONTENT_OBJECT) == o,
    )
}

// Some complement list names the object.
#[tactic(auto, unfolding(profile::specs::Relations::complement))]
pub fn complement(s: &[u8], o: u16) -> bool
    ensures { result ≡ complement (sheet_of s.now) o }
{
    any(
        count(s, OBJECTS),
        |l| lists(s, OBJECTS, l, COMPLEMENT_LIST, o),
    )
}

// The object whose set v is, the number of objects where there is none, as in the definition.
#[tactic(auto, unfolding(profile::specs::Relations::owner))]
pub fn owner(s: &[u8], v: u16) -> u16
    ensures { result ≡ owner (sheet_of s.now) v }
{
    lowest(count(s, OBJECTS), |o| has_set(s, o, v))
}

// How many groups the sheet has.
#[tactic(auto, unfolding(profile::specs::Relations::groups))]
pub fn groups(s: &[u8]) -> u16
    ensures { result ≡ groups (sheet_of s.now) }
{
    how_many(count(s, OBJECTS), |l| leader(s, l))
}
