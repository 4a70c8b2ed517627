// The proved check of live frames run on stored inputs. Each argument names a file of data/, an input as `framecheck` reads it, and gets a
// line: the file's name and the verdict. The expected lines, in the file stdout, are those of the second implementation in bindings/rust
// (tools/store-frames).
#![tactic(auto)]

use frameinput::line::frame_line;
use frameinput::reading::read_verdict;
use std::env::Env;
use std::fs::Files;
use std::io::Write;
use text::output::Output;
use text::reading::{arg_count, read_argument, refuse_argument, write_argument};

// What can't be read or judged is told, and so is a write that failed; neither ends anything.
fn tell_verdict<R: Env + Files + Print + Eprint>(rt: &R, at: usize) {
    let mut input = io::large_buffer();
    let Ok(count) = read_argument(rt, at, &mut input) else {
        return;
    };
    if count == input.len() {
        return refuse_argument(rt, at, "too long to be stored");
    }
    let Ok(verdict) = read_verdict(&mut &input[..count]) else {
        return refuse_argument(rt, at, "no frame length");
    };
    write_argument(rt, at);
    let mut output = Output { rt };
    let _ = output.write_all(b": ");
    let _ = output.write_all(frame_line(verdict));
}

fn main(rt: HostRuntime) {
    for at in 1..arg_count(&rt) {
        tell_verdict(&rt, at);
    }
}
