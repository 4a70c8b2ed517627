// The table of a lent list.
ghost use Rattle.std.specs.Prelude.{length, set, ◌<◌, true, ◌≡◌};
ghost use Rattle.languages.specs.steps.Pairs.{words_of};
ghost use Rattle.languages.specs.steps.Table.{Tabled};
ghost use Rattle.profile.specs.Languages.{is_rising};
ghost use Rattle.values.specs.Language.{three_letters};

use crate::reserved::{FIRST_OF_Q, FIRST_OF_QU};
use crate::search::how_many_at_most;
use values::language::three_letters;

// The last word of three letters.
const ZZZ: u16 = 26 * 1024 + 26 * 32 + 26;

// Enough for every word of three letters.
pub const LANGUAGE_WORDS: usize = ZZZ as usize + 1;

// Marks a word, if it is of three letters.
fn mark_code(w: u16, table: &mut [bool; LANGUAGE_WORDS])
    requires { w < length table.old }
    ensures { table.new ≡ set table.old w (three_letters w) }
{
    table[usize::from(w)] = three_letters(w);
}

// Fills a table: the codes of three letters that the list has, or that are "from qaa to qtz", and no others. That the list rises tells where
// its words past the table begin, so that none is compared with the table's length.
pub(crate) fn fill(pairs: &[[u8; 2]], table: &mut [bool; LANGUAGE_WORDS])
    requires { is_rising (words_of pairs.now) ≡ true }
    ensures { Tabled (words_of pairs.now) table.new }
{
    *table = [false; LANGUAGE_WORDS];
    for w in FIRST_OF_Q..FIRST_OF_QU {
        mark_code(w, table);
    }
    for pair in &pairs[..how_many_at_most(pairs, ZZZ)] {
        mark_code(u16::from_be_bytes(*pair), table);
    }
}
