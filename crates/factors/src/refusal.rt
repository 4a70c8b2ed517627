// Document 02's number of the refusal, which is the declared one.
ghost use Rattle.std.specs.Prelude.{◌≡◌};
ghost use Rattle.factors.specs.Conversion.{refusal_number};

use crate::FactorRefusal;

impl From<FactorRefusal> for u16 {
    ghost from_gives = { λ refusal n. n ≡ refusal_number refusal };

    fn from(refusal: FactorRefusal) -> u16 {
        refusal as u16
    }
}
