// Reads a live frame from standard input, numbers of 32 bits, high byte first: the frame length, then three for each block of one channel.
// Prints the verdict: `accepted`, or the first error as in `rule 35`.
#![tactic(auto)]

use frameinput::Unjudged;
use frameinput::answer::answer_frame;
use std::io::Input;
use text::output::{Output, say_failure};
use text::reading::arg_count;

// An argument, an input without a frame length or a read that fails gives no verdict: standard error says why.
fn main(rt: HostRuntime) {
    if arg_count(&rt) > 1 {
        let _ = eprintln!(rt; "usage: framecheck <FILE");
        return;
    }
    match answer_frame(&mut rt.reader(), &mut Output { rt: &rt }) {
        Err(Unjudged::NoFrameLength) => say_failure(&rt, "standard input", "no frame length"),
        Err(Unjudged::Unread(error)) => say_failure(&rt, "standard input", error),
        // a write that failed was told
        Ok(()) | Err(Unjudged::Unwritten(_)) => {}
    }
}
