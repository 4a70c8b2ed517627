// The proved checker run on stored sheets. Each pair of arguments names two files of data/, a list of languages and a sheet, and gets a
// line: the sheet's name and the verdict. The expected lines, in the file stdout, are those of the second checker in bindings/rust
// (tools/store-sheets).
#![tactic(auto)]

use std::io::Write;
use text::output::Output;
use text::reading::{arg_count, write_argument};
use text::sheets::tell_files;
use verdicts::write_verdict;

fn main(rt: HostRuntime) {
    let count = arg_count(&rt);
    if count % 2 == 0 {
        let _ = eprintln!(rt; "usage: checktest LANGS SHEET ..");
        return;
    }
    for k in 0..count / 2 {
        let sheet_at = 2 * k + 2;
        // what can't be read or written is told, and ends nothing: a failed write of the name not even the line
        let _ = tell_files(&rt, 2 * k + 1, sheet_at, |sheet, langs| {
            write_argument(&rt, sheet_at);
            let mut output = Output { rt: &rt };
            let _ = output.write_all(b": ");
            write_verdict(&mut output, sheet, langs)
        });
    }
}
