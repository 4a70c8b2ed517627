// The proved listener run on stored scripts. Arguments come in triples, a list of languages, a sheet and a script of data/; for each triple
// stand a line with the script's name, the opening's answer, and an answer to each line of the script.
#![tactic(auto)]

mod scripts;
mod steps;

use console::Lent;
use scripts::answer_script;
use std::env::Env;
use std::fs::Files;
use text::output::write_output;
use text::reading::{arg_count, read_argument, refuse_argument, write_argument};
use text::sheets::tell_files;

// Runs the script that an argument names, on a sheet under a list of languages.
fn run_script<R: Env + Files + Print + Eprint>(rt: &R, lent: Lent, i: usize) {
    let mut script = [0u8; 65537];
    let Ok(n) = read_argument(rt, i, &mut script) else {
        return;
    };
    if n > 65536 {
        refuse_argument(rt, i, "longer than 65536 bytes");
        return;
    }
    // a failure is told, and ends nothing
    let _ = write_output(rt, b"script ");
    write_argument(rt, i);
    let _ = write_output(rt, b"\n");
    answer_script(rt, lent, &script[..n]);
}

fn main(rt: HostRuntime) {
    let count = arg_count(&rt);
    if count % 3 != 1 {
        let _ = eprintln!(rt; "usage: listentest LANGS SHEET SCRIPT ..");
        return;
    }
    for k in 0..count / 3 {
        let script_at = 3 * k + 3;
        // what can't be read is told, and ends nothing
        let _ = tell_files(&rt, 3 * k + 1, 3 * k + 2, |sheet, langs| {
            run_script(&rt, Lent { sheet, langs }, script_at)
        });
    }
}
