// A sheet as 16-bit words, high byte first.
ghost use Rattle.std.specs.Prelude.{◌*◌, ◌+◌, ◌≡◌};
ghost use Rattle.sheet.specs.Words.{sheet_of, word, word_count};

// The word at an index, or 0 past the end.
#[tactic(auto, unfolding(crate::specs::Words::sheet_of, crate::specs::Words::word), using(crate::proofs::WordLaws::past))]
pub fn word(s: &[u8], i: usize) -> u16
    ensures { result ≡ word (sheet_of s.now) i }
{
    let (words, _) = s.as_chunks::<2>();
    match words.get(i) {
        Some(bytes) => u16::from_be_bytes(*bytes),
        None => 0,
    }
}

// How many whole words the sheet has.
#[tactic(auto, unfolding(crate::specs::Words::sheet_of, crate::specs::Words::word_count), using(crate::proofs::WordLaws::how_many_lem))]
pub fn word_count(s: &[u8]) -> usize
    ensures { result ≡ word_count (sheet_of s.now) }
{
    s.len() / 2
}
