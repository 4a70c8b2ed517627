// A word is looked for in a list that rises, by sums of falling steps: std's `binary_search_by_key` divides the list's length at each turn
// (document 02, L4), and takes more instructions (docs/SPEED.md).
ghost use Rattle.std.specs.Prelude.{ℕ, ◌∷◌, ◌+◌, get_or, leb, length, ltb, ◌&&◌, ◌<◌, ◌≤◌, true, ◌≡◌};
ghost use Rattle.languages.specs.steps.Pairs.{words_of};
ghost use Rattle.languages.specs.steps.Search.{Above, AtMost, halves};
ghost use Rattle.profile.specs.Languages.{is_listed, is_rising};

// Each is half the one before it, so that together they lead to every index of a list that rises: it has at most 65,536 words. A list of at
// most 512 words needs the last nine, and one of at most 16 the last four.
const LONG: [usize; 7] = [32768, 16384, 8192, 4096, 2048, 1024, 512];

const MIDDLE: [usize; 5] = [256, 128, 64, 32, 16];

const SHORT: [usize; 4] = [8, 4, 2, 1];

// Whether the list has a word at the index that is at most the given one.
fn is_at_most(pairs: &[[u8; 2]], i: usize, w: u16) -> bool
    ensures { result ≡ (ltb i (length (words_of pairs.now)) && leb (get_or (words_of pairs.now) i 0) w) }
{
    match pairs.get(i) {
        Some(pair) => u16::from_be_bytes(*pair) <= w,
        None => false,
    }
}

// Goes on from an index by steps: so many indices are left, from that one on, at which the last word can stand that is at most the given one.
fn narrow(pairs: &[[u8; 2]], w: u16, from: usize, left: usize, steps: &[usize]) -> usize
    requires halves { halves (left ∷ steps.now) ≡ true }
    requires fits { from + left ≤ 65536 }
    ensures fits { result + get_or (left ∷ steps.now) (length steps.now) 0 ≤ 65536 }
    ensures last { AtMost (words_of pairs.now) w from → Above (words_of pairs.now) w (from + left) → AtMost (words_of pairs.now) w result × Above (words_of pairs.now) w (result + get_or (left ∷ steps.now) (length steps.now) 0) }
{
    let mut last = from;
    for step in steps {
        if is_at_most(pairs, last + step, w) {
            last += step;
        }
    }
    last
}

// An index from which on the last word that is at most the given one stands at one of 512.
fn within_512(pairs: &[[u8; 2]], w: u16) -> usize
    ensures fits { result + 512 ≤ 65536 }
    ensures last { AtMost (words_of pairs.now) w result × Above (words_of pairs.now) w (result + 512) }
{
    if 512 < pairs.len() {
        narrow(pairs, w, 0, 65536, &LONG)
    } else {
        0
    }
}

// The same with 16.
fn within_16(pairs: &[[u8; 2]], w: u16) -> usize
    ensures fits { result + 16 ≤ 65536 }
    ensures last { AtMost (words_of pairs.now) w result × Above (words_of pairs.now) w (result + 16) }
{
    let from = within_512(pairs, w);
    if 16 < pairs.len() {
        narrow(pairs, w, from, 512, &MIDDLE)
    } else {
        from
    }
}

// The index of the last word that is at most the given one, in a list that rises; 0 where there is none.
fn last_at_most(pairs: &[[u8; 2]], w: u16) -> usize
    ensures small { result < 65536 }
    ensures last { AtMost (words_of pairs.now) w result × Above (words_of pairs.now) w (result + 1) }
{
    narrow(pairs, w, within_16(pairs, w), 16, &SHORT)
}

// Whether a list that rises has the word: it stands there or nowhere.
pub fn finds(pairs: &[[u8; 2]], w: u16) -> bool
    ensures { is_rising (words_of pairs.now) ≡ true → result ≡ is_listed (words_of pairs.now) w }
{
    match pairs.get(last_at_most(pairs, w)) {
        Some(pair) => u16::from_be_bytes(*pair) == w,
        None => false,
    }
}

// How many words of a list that rises are at most the given one: those at its front.
pub fn how_many_at_most(pairs: &[[u8; 2]], w: u16) -> usize
    ensures within { result ≤ length pairs.now }
    ensures front { is_rising (words_of pairs.now) ≡ true → (i : ℕ) → i < result → get_or (words_of pairs.now) i 0 ≤ w }
    ensures rest { is_rising (words_of pairs.now) ≡ true → (i : ℕ) → result ≤ i → i < length (words_of pairs.now) → w < get_or (words_of pairs.now) i 0 }
{
    let last = last_at_most(pairs, w);
    if is_at_most(pairs, last, w) {
        last + 1
    } else {
        0
    }
}
