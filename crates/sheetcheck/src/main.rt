// Reads a sheet from standard input, and a list of languages from the file `langs` of the folder that it runs in, and prints the verdict:
// `accepted`, or a line like `rule 14 section 3 record 0`.
#![tactic(auto)]

use text::output::Output;
use text::reading::arg_count;
use text::sheets::tell_input;
use verdicts::write_verdict;

// The sheet's buffer is longer than any sheet, so an input that fills it breaks rule 1, whatever follows; and a list that fills its buffer
// can't rise, and breaks rule 33 (`cut_input`, `cut_langs`, crates/verdicts/proofs/LongInput.antt). No file `langs` is an empty list. An
// argument, or a read that fails, gives no verdict: standard error says why.
fn main(rt: HostRuntime) {
    if arg_count(&rt) > 1 {
        let _ = eprintln!(rt; "usage: sheetcheck <FILE");
        return;
    }
    // what can't be read or written is told, and ends the program
    let _ = tell_input(
        &rt,
        |sheet, langs| write_verdict(&mut Output { rt: &rt }, sheet, langs),
    );
}
