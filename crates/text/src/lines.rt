// Lines of text, and the fields of a line.
ghost use Rattle.std.specs.Prelude.{◌+◌, ◌<◌, ◌≤◌, [], ◌∷◌, ◌≡◌, MatchOption, length, get_or};
ghost use Rattle.text.specs.Bytes.{same};
ghost use Rattle.text.specs.Lines.{fields, is_blank, line_end, part, said};

// The longest line that can be a command, without its newline.
const LONGEST: usize = 256;

// The room that a line takes while it is read: one byte more, by which a longer line is known.
pub const ROOM: usize = LONGEST + 1;

// Whether two texts have the same bytes: `==`, under the definition that the contracts of the commands name.
#[tactic(auto, using(crate::proofs::BytesLaws::compared))]
pub fn same(a: &[u8], b: &[u8]) -> bool
    ensures { result ≡ same a.now b.now }
{
    a == b
}

// A part of a text; empty where the text has no such part, as in the definition: no caller asks which of the two it is.
#[tactic(auto, unfolding(crate::specs::Lines::part))]
pub fn part(text: &[u8], start: usize, end: usize) -> &[u8]
    ensures { result.now ≡ part text.now start end }
{
    text.get(start..end).unwrap_or(&[])
}

// Where the line that begins at a place of a text ends: before its newline, or at the text's end.
#[tactic(auto, unfolding(crate::specs::Lines::line_end))]
pub fn line_end(text: &[u8], at: usize) -> usize
    ensures { (result ≡ line_end text.now at) × (at ≤ result) × (at ≤ length text.now → result ≤ length text.now) }
{
    let Some(rest) = text.get(at..) else {
        return at;
    };
    let newline = rest.iter().position(|byte| *byte == b'\n');
    at + newline.unwrap_or(rest.len())
}

// What a line says: the line without a carriage return at its end. A line that is too long says nothing.
#[tactic(auto, unfolding(crate::specs::Lines::said, crate::specs::Lines::without_return))]
pub fn said(line: &[u8]) -> &[u8]
    ensures { result.now ≡ said line.now }
{
    if line.len() > LONGEST {
        return &[];
    }
    match line.split_last() {
        Some((b'\r', rest)) => rest,
        _ => line,
    }
}

// Fields are separated by spaces and tabs.
#[tactic(auto, unfolding(crate::specs::Lines::is_blank))]
fn is_blank(b: u8) -> bool
    ensures { result ≡ is_blank b }
{
    (b == b' ') | (b == b'\t')
}

// The first field of a line, and what is behind it; `None` where the line has no field.
fn first_field(line: &[u8]) -> Option<(&[u8], &[u8])>
    ensures { MatchOption result (fields line.now ≡ []) (λ found. (fields line.now ≡ found.0.now ∷ fields found.1.now) × (length found.1.now < length line.now)) }
{
    let start = line.iter().position(|byte| !is_blank(*byte))?;
    let from = &line[start..];
    match from.iter().position(|byte| is_blank(*byte)) {
        Some(end) => Some(from.split_at(end)),
        None => Some((from, &[])),
    }
}

// A field by its number, from 0; empty where the line has fewer, as in the definition: no name and no number is empty.
pub fn field(line: &[u8], k: u8) -> &[u8]
    ensures { result.now ≡ get_or (fields line.now) k [] }
{
    let mut rest = line;
    for _ in 0..k {
        let Some((_, behind)) = first_field(rest) else {
            return &[];
        };
        rest = behind;
    }
    match first_field(rest) {
        Some((found, _)) => found,
        None => &[],
    }
}

// How many fields the line has: no more than bytes.
#[tactic(auto, using(crate::proofs::LineLaws::no_bytes))]
pub fn field_count(line: &[u8]) -> usize
    ensures { result ≡ length (fields line.now) }
{
    let mut rest = line;
    for count in 0..line.len() {
        let Some((_, behind)) = first_field(rest) else {
            return count;
        };
        if behind.is_empty() {
            // the last, without another search
            return count + 1;
        }
        rest = behind;
    }
    line.len()
}
