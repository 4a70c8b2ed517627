// The listening bench: `listen FILE` opens a sheet under the list of languages in the file `langs` of the folder that it runs in, then
// answers each line of standard input. console::commands has the commands.
#![tactic(auto)]

use console::Lent;
use console::input::answer_lines;
use std::env::Env;
use std::fs::Files;
use std::io::Input;
use text::answering::Unanswered;
use text::output::{Output, say_failure};
use text::reading::{LANGS_ROOM, arg_count, argument_is, read_argument, read_langs};

// Reads the sheet that the argument names, and answers. The buffer is longer than any sheet, so a file that fills it is refused, whatever
// follows.
fn answer_under<R: Input + Env + Files + Print + Eprint>(rt: &R, langs: &[u8]) {
    let mut buffer = io::large_buffer();
    let Ok(count) = read_argument(rt, 1, &mut buffer) else {
        return;
    };
    let sheet = &buffer[..count];
    // a write that failed was told
    let answered = answer_lines(Lent { sheet, langs }, &mut rt.reader(), &mut Output { rt });
    if let Err(Unanswered::Unread(error)) = answered {
        say_failure(rt, "standard input", error);
    }
}

fn main(rt: HostRuntime) {
    if arg_count(&rt) != 2 || argument_is(&rt, 1, b"--help") {
        let _ = eprintln!(rt; "usage: listen FILE");
        return;
    }
    let mut langs = [0u8; LANGS_ROOM];
    let Ok(count) = read_langs(&rt, &mut langs) else {
        return;
    };
    answer_under(&rt, &langs[..count]);
}
