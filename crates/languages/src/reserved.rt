// The words that are good without being listed: "from qaa to qtz (second letter a to t)".
ghost use Rattle.std.specs.Prelude.{◌≡◌};
ghost use Rattle.profile.specs.Languages.{is_reserved};

// They stand together, among words that are no three letters: from the first word of q on, and before the first of qu.
pub const FIRST_OF_Q: u16 = 17 * 1024;

pub const FIRST_OF_QU: u16 = 17 * 1024 + 21 * 32;

// Whether a word of three letters is one of them.
#[tactic(auto, using(crate::proofs::ReservedLaws::between))]
pub fn is_reserved(w: u16) -> bool
    ensures { result ≡ is_reserved w }
{
    (FIRST_OF_Q <= w) & (w < FIRST_OF_QU)
}
