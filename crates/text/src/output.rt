// Writing to standard output, and to standard error what failed and why.
use std::fmt::Display;
use std::io::{Error, ErrorKind, Write};

// Says on standard error what failed, and why. Where that fails too, there is nowhere left to say it.
pub fn say_failure<R: Eprint, D: Display + Drop>(rt: &R, what: &str, why: D) {
    let _ = eprintln!(rt; "{what}: {why}");
}

// Says why standard output was not written; but who closed the pipe wants to hear nothing.
fn say_unwritten<R: Eprint>(rt: &R, error: Error) {
    if error.kind() != ErrorKind::BrokenPipe {
        say_failure(rt, "standard output", error);
    }
}

// Writes a text. Where that fails, standard error says why.
pub fn write_output<R: Print + Eprint>(rt: &R, text: &[u8]) -> Result<(), Error> {
    rt.write_all(text)
        .inspect_err(|error| say_unwritten(rt, *error))
}

// Standard output, for what writes to any writer. Where a write fails, standard error says why. Its bytes are not known: no contract says
// what standard output has.
#[derive(Drop)]
pub struct Output<'a, R> {
    pub rt: &'a R,
}

impl<R: Print + Eprint> Write for Output<'_, R> {
    fn write(&mut self, bytes: &[u8]) -> Result<usize, Error> {
        self.rt
            .write_some(bytes)
            .inspect_err(|error| say_unwritten(self.rt, *error))
    }

    fn write_all(&mut self, bytes: &[u8]) -> Result<(), Error> {
        write_output(self.rt, bytes)
    }

    fn flush(&mut self) -> Result<(), Error> {
        Ok(())
    }
}
