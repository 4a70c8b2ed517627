// What a programme includes, and the sets that it names.
ghost use Rattle.std.specs.Prelude.{◌≡◌};
ghost use Rattle.profile.specs.Relations.{includes, named_set, names_set};
ghost use Rattle.sheet.specs.Words.{sheet_of};

use crate::entries::any_entry;
use crate::sets::has_set;
use sheet::fields::{CONTENT_LIST, CONTENT_OBJECT, CONTENTS, PROGRAMMES, SET_LIST};
use sheet::layout::{entry, field};

// "A programme includes the top objects of its contents".
pub fn includes(s: &[u8], p: u16, o: u16) -> bool
    ensures { result ≡ includes (sheet_of s.now) p o }
{
    any_entry(s, PROGRAMMES, p, CONTENT_LIST, |c| {
        field(s, CONTENTS, c, CONTENT_OBJECT) == o
    })
}

// The set at a position of the programme's set list.
#[tactic(auto, unfolding(profile::specs::Relations::named_set))]
pub fn named_set(s: &[u8], p: u16, i: u16) -> u16
    ensures { result ≡ named_set (sheet_of s.now) p i }
{
    entry(s, PROGRAMMES, p, SET_LIST, i)
}

// The programme names a set for the object.
pub fn names_set(s: &[u8], p: u16, o: u16) -> bool
    ensures { result ≡ names_set (sheet_of s.now) p o }
{
    any_entry(s, PROGRAMMES, p, SET_LIST, |v| has_set(s, o, v))
}
