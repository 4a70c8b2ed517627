// Codes of three letters, and loudness.
ghost use Rattle.std.specs.Prelude.{◌≡◌};
ghost use Rattle.values.specs.Language.{loudness, three_letters};

use crate::codes::CODES;

// "1024 times the first letter plus 32 times the second plus the third": one look at the word's own entry, and nothing to take apart.
#[tactic(auto)]
pub fn three_letters(w: u16) -> bool
    ensures { result ≡ three_letters w }
{
    let codes = CODES.as_flattened().as_flattened().as_flattened();
    codes[usize::from(w)]
}

// "Loudness is 1 integrated, 2 dialogue, 3 both."
#[tactic(auto, unfolding(crate::specs::Language::loudness))]
pub fn loudness(w: u16) -> bool
    ensures { result ≡ loudness w }
{
    (1 <= w) & (w <= 3)
}
