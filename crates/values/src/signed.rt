// "A word is 16 bits [..]; signed words are two's complement."
ghost use Rattle.std.specs.Prelude.{◌≡◌};
ghost use Rattle.values.specs.Signed.{signed_of, word_of};

// Both are the library's call under the name of their definition: what std says of it, in terms of bits, is shown to be the definition once,
// here, and the contracts above cite the definition.

// The number that a word stands for.
#[tactic(auto, unfolding(crate::specs::Signed::signed_of))]
pub fn signed(w: u16) -> i16
    ensures { result ≡ signed_of w }
{
    w.cast_signed()
}

// The word that stands for a number.
#[tactic(auto, unfolding(crate::specs::Signed::word_of))]
pub fn word(z: i16) -> u16
    ensures { result ≡ word_of z }
{
    z.cast_unsigned()
}
