// Reads a sheet from standard input, and a list of languages from the file `langs` of the folder that it runs in, and prints the verdict,
// and the figures that a refusal by rule 18, 20 or 24 is told with: lines like `section 3 record 0 figure -600`.
#![tactic(auto)]

use figurelines::write_figures;
use text::output::Output;
use text::reading::arg_count;
use text::sheets::tell_input;

// The sheet's buffer is longer than any sheet, so an input that fills it breaks rule 1, whatever follows; and a list that fills its buffer
// can't rise, and breaks rule 33; neither has figures (`cut_figures`, `cut_figures_langs`, crates/figurelines/proofs/LongInput.antt). No
// file `langs` is an empty list. An argument, or a read that fails, gives no verdict: standard error says why.
fn main(rt: HostRuntime) {
    if arg_count(&rt) > 1 {
        let _ = eprintln!(rt; "usage: sheetfigures <FILE");
        return;
    }
    // what can't be read or written is told, and ends the program
    let _ = tell_input(
        &rt,
        |sheet, langs| write_figures(&mut Output { rt: &rt }, sheet, langs),
    );
}
