// Reads factors in millionths from standard input, one a line, and answers each with its gain: `silence`, the tenths of a dB as in `-600`,
// `refused 34` where the factor is above 11,220,184, or `?` where the line is no number of 32 bits.
#![tactic(auto)]

use factorlines::converter::answer_factors;
use std::io::Input;
use text::answering::Unanswered;
use text::output::{Output, say_failure};
use text::reading::arg_count;

fn main(rt: HostRuntime) {
    if arg_count(&rt) > 1 {
        let _ = eprintln!(rt; "usage: gaintenths <FILE");
        return;
    }
    // a write that failed was told
    let answered = answer_factors(&mut rt.reader(), &mut Output { rt: &rt });
    if let Err(Unanswered::Unread(error)) = answered {
        say_failure(&rt, "standard input", error);
    }
}
