// Whether a lent list rises. This is asked at every call, so it is written for the compiler to compare many words at once: to the list's end,
// and without a branch. Tried as std's `is_sorted_by`, which stops at the first fall (docs/DESIGN-PASS.md).
ghost use Rattle.std.specs.Prelude.{◌≡◌};
ghost use Rattle.languages.specs.steps.Pairs.{words_of};
ghost use Rattle.profile.specs.Languages.{is_rising};

// "strictly rising": no word is at most the one before it.
#[tactic(auto)]
pub fn rises(pairs: &[[u8; 2]]) -> bool
    ensures { result ≡ is_rising (words_of pairs.now) }
{
    let mut falls = false;
    for i in 1..pairs.len() {
        falls |= u16::from_be_bytes(pairs[i]) <= u16::from_be_bytes(pairs[i - 1]);
    }
    !falls
}
