// Document 01's numbers of the listener's own refusals, which are the declared ones. std has no derive for them, and no trait by which one
// `From` would serve all enums with numbers.
ghost use Rattle.std.specs.Prelude.{◌≡◌};
ghost use Rattle.listener.specs.State.{refusal_number};

use crate::Refusal;

impl From<Refusal> for u16 {
    ghost from_gives = { λ refusal n. n ≡ refusal_number refusal };

    fn from(refusal: Refusal) -> u16 {
        refusal as u16
    }
}
