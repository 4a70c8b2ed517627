// A lent list that rises, and which words are good under it.
ghost use Rattle.std.specs.Prelude.{List, ℕ, Some, None, cond, length, leb, ◌-◌, ◌≡◌, true};
ghost use Rattle.languages.specs.steps.Pairs.{words_of};
ghost use Rattle.languages.specs.steps.Table.{Tabled};
ghost use Rattle.profile.specs.Languages.{good_language, is_listed, is_rising};
ghost use Rattle.sheet.specs.Words.{words};

use crate::reserved::is_reserved;
use crate::rising::rises;
use crate::search::finds;
use crate::table::{LANGUAGE_WORDS, fill};
use std::marker::Model;
use values::language::three_letters;

// The words of a list that rises. The table tells of the words that it reaches; it may be empty.
#[derive(Drop)]
pub struct Languages<'a> {
    pairs: &'a [[u8; 2]],
    table: &'a [bool],
}

impl<'a> Model for Languages<'a> {
    ghost Value = { List ℕ };

    ghost view = { λ l. words_of l.pairs.now };

    ghost invariant = { λ l. (is_rising (words_of l.pairs.now) ≡ true) × Tabled (words_of l.pairs.now) l.table.now };
}

impl<'a> Languages<'a> {
    // The list of lent bytes, if it rises.
    #[tactic(auto, using(crate::proofs::PairLaws::words_of_pairs))]
    pub fn lent(langs: &'a [u8]) -> Option<Languages<'a>>
        ensures { result ≡ cond (is_rising (words langs.now)) (Some (words langs.now)) None }
    {
        let (pairs, _) = langs.as_chunks::<2>();
        if rises(pairs) {
            Some(Languages { pairs, table: &[] })
        } else {
            None
        }
    }

    // "strictly rising": so is each list of this type. The read of a field brings the type's invariant into the proof.
    pub fn rises(&self) -> bool
        ensures { result ≡ is_rising self.now }
    {
        // reading a field shows the proof the invariant, which says it
        let _ = &self.pairs;
        true
    }

    // Whether the list has at most two words for each byte of a sheet, so that a table of it is worth its filling.
    #[tactic(auto, using(crate::proofs::PairLaws::how_many_words))]
    pub fn is_short_for(&self, bytes: usize) -> bool
        ensures { result ≡ leb (length self.now - bytes) bytes }
    {
        self.pairs.len().saturating_sub(bytes) <= bytes
    }

    // The same list with a table, whatever stands in it before: worth its filling where many words are asked.
    pub fn tabled<'b>(&self, table: &'b mut [bool; LANGUAGE_WORDS]) -> Languages<'b>
    where
        'a: 'b,
        ensures { result ≡ self.now }
    {
        let pairs = self.pairs;
        fill(pairs, table);
        Languages { pairs, table }
    }

    // Whether the list has the word.
    fn is_listed(&self, w: u16) -> bool
        ensures { result ≡ is_listed self.now w }
    {
        finds(self.pairs, w)
    }

    // "a code of three letters is good if listed, or from qaa to qtz".
    #[tactic(auto, using(crate::proofs::GoodLaws::found_good))]
    pub fn good(&self, w: u16) -> bool
        ensures { result ≡ good_language self.now w }
    {
        match self.table.get(usize::from(w)) {
            Some(mark) => *mark,
            None => three_letters(w) && (is_reserved(w) || self.is_listed(w)),
        }
    }
}
