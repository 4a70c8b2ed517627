// The figures of stored sheets by the proved code. Each pair of arguments names two files of data/, a list of languages and a sheet, and
// gets a line with the sheet's name, then the lines that `sheetfigures` prints. The expected lines, in the file stdout, are those of the
// second implementation in bindings/rust (tools/store-figures).
#![tactic(auto)]

use figurelines::write_figures;
use std::io::Write;
use text::output::Output;
use text::reading::{arg_count, write_argument};
use text::sheets::tell_files;

fn main(rt: HostRuntime) {
    let count = arg_count(&rt);
    if count % 2 == 0 {
        let _ = eprintln!(rt; "usage: figurestest LANGS SHEET ..");
        return;
    }
    for k in 0..count / 2 {
        let sheet_at = 2 * k + 2;
        // what can't be read or written is told, and ends nothing: a failed write of the name not even the line
        let _ = tell_files(&rt, 2 * k + 1, sheet_at, |sheet, langs| {
            write_argument(&rt, sheet_at);
            let mut output = Output { rt: &rt };
            let _ = output.write_all(b":\n");
            write_figures(&mut output, sheet, langs)
        });
    }
}
