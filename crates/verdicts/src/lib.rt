// A verdict as a line of text, for every program that prints one: `verdict_line` is the line of the verdict on lent bytes, a sheet and the
// list of languages beside it, two arguments as in the definitions.
#![tactic(auto)]

ghost use Rattle.checker.specs.Checked.{checked};
ghost use Rattle.std.specs.Io.KnownBytes.{Appends as AppendsKnown};
ghost use Rattle.std.specs.Prelude.{OnOk};
ghost use Rattle.verdicts.specs.VerdictLine.{verdict_line};
ghost use Rattle.text.specs.Buffer.{Appends, TextFilled};

use checker::search::check;
use profile::Verdict;
use std::io::{Error, Write};
use text::writing::Text;

// More room than any line of a verdict takes.
pub const VERDICT_ROOM: usize = 128;

// Functions over a `Text`, and no `impl Display`: the reason stands at `Text` (crates/text/src/writing.rt).

// `accepted`, or the rule with its place as in `rule 14 section 3 record 0`, and the line's end.
#[tactic(auto, unfolding(crate::specs::VerdictLine::verdict_line))]
pub fn put_verdict(text: &mut Text, verdict: Verdict)
    ensures { Appends text.old (verdict_line verdict) text.new }
{
    match verdict {
        Verdict::Accepted => text.text(b"accepted\n"),
        Verdict::Broken(rule, place) => {
            text.text(b"rule ");
            text.number(u64::from(rule));
            text.text(b" section ");
            text.number(u64::from(place.section()));
            text.text(b" record ");
            text.number(u64::from(place.record()));
            text.text(b"\n");
        }
    }
}

// Writes the line of a sheet's verdict under a list of languages into a lent buffer, and gives its length. No slice of the buffer in its
// place: the contract speaks of the whole buffer, and so says what stands behind the line too.
pub fn verdict_line(sheet: &[u8], langs: &[u8], line: &mut [u8; VERDICT_ROOM]) -> usize
    ensures { TextFilled line.old (verdict_line (checked sheet.now langs.now)) result line.new }
{
    let mut text = Text::new(line);
    put_verdict(&mut text, check(sheet, langs));
    text.count
}

// Writes the line of a sheet's verdict under a list of languages. `write_figures` (crates/figurelines/src/lib.rt) has the same steps over
// another room, as `figures_text` has those of `verdict_line`: one function for both would take the room and a closure that fills it, and
// require that its count is at most the room.
#[tactic(auto, using(text::proofs::AnsweringLaws::filled_written))]
pub fn write_verdict<W: Write>(output: &mut W, sheet: &[u8], langs: &[u8]) -> Result<(), Error>
    ensures { OnOk result (AppendsKnown (W.contents output.old) (W.contents output.new) (verdict_line (checked sheet.now langs.now))) }
{
    let mut line = [0u8; VERDICT_ROOM];
    let length = verdict_line(sheet, langs, &mut line);
    output.write_all(&line[..length])
}
