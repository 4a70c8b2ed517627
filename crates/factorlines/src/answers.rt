// The answer to a line.
// Functions over a `Text`, and no `impl Display`: the reason stands at `Text` (crates/text/src/writing.rt).
ghost use Rattle.std.specs.Prelude.{◌≡◌};
ghost use Rattle.factorlines.specs.FactorLines.{conversion_text, factor_line, factor_of};
ghost use Rattle.text.specs.Buffer.{Appends};

use factors::FactorRefusal;
use factors::convert::gain_of_factor;
use text::lines::{field, field_count, said};
use text::numbers::wide_number_of;
use text::writing::Text;
use values::Gain;

// The factor that a line says: its only field, if that is a number of 32 bits.
#[tactic(auto, unfolding(crate::specs::FactorLines::factor_of))]
fn factor_of(text: &[u8]) -> Option<u32>
    ensures { result ≡ factor_of text.now }
{
    if field_count(text) == 1 {
        wide_number_of(field(text, 0))
    } else {
        None
    }
}

// As in `-600`, `silence` or `refused 34`.
fn put_conversion(answers: &mut Text, conversion: Result<Gain, FactorRefusal>)
    ensures { Appends answers.old (conversion_text conversion) answers.new }
{
    match conversion {
        Ok(gain) => answers.gain(gain),
        Err(refusal) => {
            answers.text(b"refused ");
            answers.number(u64::from(u16::from(refusal)));
        }
    }
}

// Writes the answer to a line behind the answers before it.
pub fn put_factor_line(answers: &mut Text, line: &[u8])
    ensures { Appends answers.old (factor_line line.now) answers.new }
{
    match factor_of(said(line)) {
        None => answers.text(b"?\n"),
        Some(millionths) => {
            put_conversion(answers, gain_of_factor(millionths));
            answers.text(b"\n");
        }
    }
}
