// What the whole sheet adds up to.
ghost use Rattle.std.specs.Prelude.{◌≡◌};
ghost use Rattle.profile.specs.Relations.{counted_tracks, share, units};
ghost use Rattle.relations.specs.steps.Sizes.{lone_objects};
ghost use Rattle.sheet.specs.Words.{sheet_of};
ghost use Rattle.tables.specs.steps.Right.{ObjectsTabled};

use crate::ObjectTables;
use profile::counting::how_many;
use relations::objects::leader;
use relations::records::groups;
use relations::sizes::{largest_member, size};
use sheet::fields::OBJECTS;
use sheet::layout::count;

impl<'a> ObjectTables<'a> {
    // What an object adds to the counted tracks.
    #[tactic(auto, unfolding(profile::specs::Relations::share, relations::specs::steps::Sizes::largest_member))]
    pub fn share(&self, s: &[u8], o: u16) -> u32
        ensures { ObjectsTabled (sheet_of s.now) self.now → result ≡ share (sheet_of s.now) o }
    {
        if leader(s, o) {
            largest_member(s, o)
        } else if self.lone_by(s, o) {
            size(s, o)
        } else {
            0
        }
    }

    // The counted tracks of the sheet.
    pub fn counted_tracks(&self, s: &[u8]) -> u64
        ensures { ObjectsTabled (sheet_of s.now) self.now → result ≡ counted_tracks (sheet_of s.now) }
    {
        let n = count(s, OBJECTS);
        let mut total: u64 = 0;
        for o in 0..n {
            total += u64::from(self.share(s, o));
        }
        total
    }

    // How many top objects are in no group.
    fn lone_objects(&self, s: &[u8]) -> u16
        ensures { ObjectsTabled (sheet_of s.now) self.now → result ≡ lone_objects (sheet_of s.now) }
    {
        how_many(count(s, OBJECTS), |o| self.lone_by(s, o))
    }

    // "groups plus top objects in no group"
    #[tactic(auto, unfolding(profile::specs::Relations::units, relations::specs::steps::Sizes::lone_objects))]
    pub fn units(&self, s: &[u8]) -> u32
        ensures { ObjectsTabled (sheet_of s.now) self.now → result ≡ units (sheet_of s.now) }
    {
        u32::from(groups(s)) + u32::from(self.lone_objects(s))
    }
}
