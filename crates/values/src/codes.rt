// The codes of three letters as a table by the word: "1024 times the first letter plus 32 times the second plus the third, a = 1 to z = 26".
// It is written by a macro, since a constant may not name another as large (kit: `too-large-constant`).

// By a letter: what stands at none, and what stands at each of the 26.
macro_rules! by_letter {
    ($none:expr, $letter:expr) => {
        [
            $none, // letter 0
            $letter, $letter, $letter, $letter, $letter, $letter, $letter, $letter, $letter, $letter, $letter, $letter, $letter,
            $letter, $letter, $letter, $letter, $letter, $letter, $letter, $letter, $letter, $letter, $letter, $letter, $letter,
            $none, $none, $none, $none, $none, // letters 27 to 31
        ]
    };
}

// By the highest bit, which no code has, and by the first letter, the second and the third, so that each of the 65,536 words has its entry.
pub(crate) static CODES: [[[[bool; 32]; 32]; 32]; 2] = [
    by_letter!(
        [[false; 32]; 32],
        by_letter!([false; 32], by_letter!(false, true))
    ),
    [[[false; 32]; 32]; 32],
];
