// The figures of a lent sheet under a lent list of languages, and their lines of text behind the line of the verdict (document 02, L1).
// Sheet and list are two arguments, as in the definitions.
#![tactic(auto)]

ghost use Rattle.std.specs.Io.KnownBytes.{Appends as AppendsKnown};
ghost use Rattle.std.specs.Prelude.{map, OnOk, ◌≡◌};
ghost use Rattle.figurelines.specs.FigureLines.{figure_line, figures_text};
ghost use Rattle.figures.specs.Clashes.{printed};
ghost use Rattle.figures.specs.Figures.{figures};
ghost use Rattle.figures.specs.Lists.{FiguresGiven};
ghost use Rattle.sheet.specs.Words.{sheet_of, words};
ghost use Rattle.text.specs.Buffer.{Appends, TextFilled};
ghost use Rattle.text.specs.Bytes.{join};
ghost use Rattle.text.specs.Decimal.{signed_decimal};

use checker::search::check;
use figures::by_verdict::figures_by;
use figures::{Figure, FigureNumber, Figures};
use std::io::{Error, Write};
use text::writing::Text;
use values::signed::signed;
use verdicts::put_verdict;

// More room than the lines of any sheet take.
pub const FIGURES_ROOM: usize = 2048;

// Functions over a `Text`, and no `impl Display`: the reason stands at `Text` (crates/text/src/writing.rt).

// The number of a figure: a word with its sign, a kind or a share as it is.
#[tactic(auto, unfolding(text::specs::Decimal::signed_decimal))]
fn put_figure_number(text: &mut Text, number: FigureNumber)
    ensures { Appends text.old (signed_decimal (printed number)) text.new }
{
    match number {
        FigureNumber::Word(w) => text.signed(signed(w)),
        FigureNumber::Derived(n) => text.number(u64::from(n)),
    }
}

// The line of a figure, as in `section 3 record 0 figure -600`.
fn put_figure(text: &mut Text, figure: Figure)
    ensures { Appends text.old (figure_line figure) text.new }
{
    text.text(b"section ");
    text.number(u64::from(figure.section));
    text.text(b" record ");
    text.number(u64::from(figure.index));
    text.text(b" figure ");
    put_figure_number(text, figure.number);
    text.text(b"\n");
}

// A line for each figure.
#[tactic(auto, unfolding(text::specs::Bytes::join), using(text::proofs::BufferLaws::appends_none))]
fn put_figures(text: &mut Text, figures: &[Figure])
    ensures { Appends text.old (join (map figure_line figures.now)) text.new }
{
    for figure in figures {
        put_figure(text, *figure);
    }
}

// The figures of a sheet under a list of languages: those of its refusal by 18, 20 or 24, none for any other verdict.
#[tactic(auto, unfolding(figures::specs::Figures::figures, checker::specs::Checked::checked), using(figures::proofs::MostLaws::figures_most, figures::proofs::GivenLaws::first_given))]
pub fn figures(sheet: &[u8], langs: &[u8]) -> Figures
    ensures { FiguresGiven (figures (sheet_of sheet.now) (words langs.now)) result }
{
    figures_by(sheet, check(sheet, langs))
}

// Writes the line of a sheet's verdict under a list of languages and a line for each figure into a lent buffer, and gives their length. No
// slice of the buffer in its place: the contract speaks of the whole buffer, and so says what stands behind the lines too.
pub fn figures_text(sheet: &[u8], langs: &[u8], lines: &mut [u8; FIGURES_ROOM]) -> usize
    ensures { TextFilled lines.old (figures_text (sheet_of sheet.now) (words langs.now)) result lines.new }
{
    let mut text = Text::new(lines);
    let verdict = check(sheet, langs);
    put_verdict(&mut text, verdict);
    let given = figures_by(sheet, verdict);
    put_figures(&mut text, given.as_slice());
    text.count
}

// Writes the line of a sheet's verdict under a list of languages and a line for each figure.
#[tactic(auto, using(text::proofs::AnsweringLaws::filled_written))]
pub fn write_figures<W: Write>(output: &mut W, sheet: &[u8], langs: &[u8]) -> Result<(), Error>
    ensures { OnOk result (AppendsKnown (W.contents output.old) (W.contents output.new) (figures_text (sheet_of sheet.now) (words langs.now))) }
{
    let mut lines = [0u8; FIGURES_ROOM];
    let length = figures_text(sheet, langs, &mut lines);
    output.write_all(&lines[..length])
}
