// The complements of a leader: rules 19 and 20, and rule 5 by a complement. That a table is right is a premise, as lib.rt tells.
ghost use Rattle.std.specs.Prelude.{◌+◌, eqb, false, not, ◌≡◌};
ghost use Rattle.profile.specs.Counting.{any};
ghost use Rattle.lists.specs.steps.Entries.{entry_at};
ghost use Rattle.screen.specs.steps.Objects.{complement_broken, complements_kept};
ghost use Rattle.sheet.specs.Fields.{interact, objects};
ghost use Rattle.sheet.specs.Layout.{field};
ghost use Rattle.sheet.specs.Words.{sheet_of};
ghost use Rattle.tables.specs.steps.Right.{ObjectsTabled};

use crate::object_words::ObjectWords;
use profile::counting::any;
use relations::objects::{kind, lacks};
use rules::groups::bad_complement;
use sheet::fields::{COMPLEMENT_LIST, INTERACT, OBJECTS};
use sheet::spans::Entries;
use tables::ObjectTables;

impl<'a> ObjectWords<'a> {
    // Whether two objects differ in the word at a position.
    fn word_differs(&self, other: &ObjectWords, position: u8) -> bool
        ensures { result ≡ not (eqb (field (sheet_of self.now.s.now) objects self.now.o position) (field (sheet_of other.now.s.now) objects other.now.o position)) }
    {
        self.word(position) != other.word(position)
    }

    // Whether they differ in interact, gain, offset or the four range words: seven words that stand one behind the other.
    #[tactic(auto, unfolding(profile::specs::Counting::any))]
    fn words_differ(&self, other: &ObjectWords) -> bool
        ensures { result ≡ any (λ f. not (eqb (field (sheet_of self.now.s.now) objects self.now.o (interact + f)) (field (sheet_of other.now.s.now) objects other.now.o (interact + f)))) 7 }
    {
        (INTERACT..INTERACT + 7).any(|position| self.word_differs(other, position))
    }

    // Whether a complement of this leader may break one of them.
    #[tactic(auto, unfolding(crate::specs::steps::Objects::complement_broken, profile::specs::Rules::differs))]
    fn complement_breaks(&self, tables: &ObjectTables, q: u16) -> bool
        ensures { ObjectsTabled (sheet_of self.now.s.now) tables.now → result ≡ complement_broken (sheet_of self.now.s.now) self.now.o q }
    {
        let s = self.s;
        lacks(s, OBJECTS, q)
            | bad_complement(s, tables, q)
            | (self.words_differ(&ObjectWords::new(s, q)) | (kind(s, self.o) != kind(s, q)))
    }

    // Whether some entry of a list of complements does.
    #[tactic(auto, unfolding(lists::specs::steps::Entries::entry_at))]
    fn any_complement_breaks(&self, tables: &ObjectTables, list: Entries) -> bool
        ensures { ObjectsTabled (sheet_of self.now.s.now) tables.now → result ≡ any (λ i. complement_broken (sheet_of self.now.s.now) self.now.o (entry_at (sheet_of self.now.s.now) list.base list.list.first i)) list.list.count }
    {
        any(list.list.count, |i| {
            self.complement_breaks(tables, list.at(self.s, i))
        })
    }
}

// Whether an object may break rule 19 or 20, or rule 5 by a complement.
pub fn complements_break(s: &[u8], tables: &ObjectTables, o: u16) -> bool
    ensures { result ≡ false → ObjectsTabled (sheet_of s.now) tables.now → complements_kept (sheet_of s.now) o }
{
    let object = ObjectWords::new(s, o);
    let list = object.span(COMPLEMENT_LIST);
    if list.count == 0 {
        return false;
    }
    object.any_complement_breaks(tables, list.entries(s))
}
