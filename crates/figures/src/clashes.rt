// Figures by the places of their words.
ghost use Rattle.std.specs.Prelude.{◌≡◌};
ghost use Rattle.figures.specs.Clashes.{in_object, in_set, told, word_at};
ghost use Rattle.sheet.specs.Words.{sheet_of};

use crate::{Figure, FigureNumber, WordPlace};
use sheet::fields::{OBJECTS, VALUE_SETS};
use sheet::layout::field;

impl WordPlace {
    // The place of an object's word. Two names, as in the definitions, for places in the two sections that have values: one for both, with
    // the section as a parameter, would be the struct itself.
    pub fn in_object(o: u16, at: u8) -> WordPlace
        ensures { result ≡ in_object o at }
    {
        WordPlace {
            section: OBJECTS,
            index: o,
            at,
        }
    }

    // The place of a value set's word.
    pub fn in_set(v: u16, at: u8) -> WordPlace
        ensures { result ≡ in_set v at }
    {
        WordPlace {
            section: VALUE_SETS,
            index: v,
            at,
        }
    }

    // The word that stands there.
    pub fn word(self, s: &[u8]) -> u16
        ensures { result ≡ word_at (sheet_of s.now) self }
    {
        field(s, self.section, self.index, self.at)
    }

    // The same as a figure.
    pub fn told(self, s: &[u8]) -> Figure
        ensures { result ≡ told (sheet_of s.now) self }
    {
        Figure {
            section: self.section,
            index: self.index,
            number: FigureNumber::Word(self.word(s)),
        }
    }
}
