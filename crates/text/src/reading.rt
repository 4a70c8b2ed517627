// Reading a whole input, with an error told from the end, and the files that arguments name.
ghost use Rattle.io.specs.Counts.{IsPrefixLen};
ghost use Rattle.std.specs.Io.KnownBytes.{Consumes, IsAtEnd};
ghost use Rattle.std.specs.Prelude.{◌<◌, ◌≡◌, IsOk, length, take};
ghost use Rattle.text.specs.Reading.{bytes_read};

use crate::lines::same;
use crate::output::say_failure;
use std::env::{Env, FillError};
use std::fmt::Display;
use std::fs::Files;
use std::io::{Error, ErrorKind, Read};
use std::{fs, str};

// A list of more words can't rise, so that so many bytes decide (`cut_langs`, crates/verdicts/proofs/LongInput.antt): 65,537 words.
pub const LANGS_ROOM: usize = 131074;

// A read that failed: why, and how many bytes were read before. `read_input` promises of those what it promises of a whole input
// (`bytes_read`), so the error alone would say less.
#[derive(Clone, Copy)]
pub struct ReadFailed {
    pub error: Error,
    pub count: usize,
}

// Reads until the buffer is full, the input ends or a read fails, and gives how many bytes were read; a read may give less than it is asked
// for. A number and no part of the buffer: the contract speaks of the whole buffer, and a read that fails leaves what it gave there too. So
// it is with the functions below. Where the reader's bytes are known, those are the first of them, and all of them if no read failed and
// the buffer is not full.
pub fn read_input<R: Read>(reader: &mut R, buffer: &mut [u8]) -> Result<usize, ReadFailed>
    ensures bound { IsPrefixLen (bytes_read result) buffer.new }
    ensures bytes { Consumes (R.remaining reader.old) (R.remaining reader.new) (take (bytes_read result) buffer.new) }
    ensures whole { IsOk result → bytes_read result < length buffer.new → IsAtEnd (R.remaining reader.new) }
{
    let mut count = 0;
    // No `for`: a turn passes as many bytes as the read gave, and the end of the input ends the loop.
    while count < buffer.len() {
        match reader.read(&mut buffer[count..]) {
            Ok(0) => return Ok(count),
            Ok(more) => count += more,
            Err(error) => return Err(ReadFailed { error, count }),
        }
    }
    Ok(count)
}

// How many arguments the program was started with, its own name among them.
pub fn arg_count<R: Env>(rt: &R) -> usize {
    (0..usize::MAX)
        .find(|i| matches!(rt.arg(*i, &mut []), Err(FillError::NotPresent)))
        .unwrap_or(usize::MAX)
}

// An argument as text, which the name of a file has to be.
fn argument_text<'a, R: Env>(rt: &R, i: usize, room: &'a mut [u8]) -> Result<&'a str, Error> {
    let n = rt.arg(i, room).map_err(|unfilled| match unfilled {
        FillError::NotPresent => Error::from(ErrorKind::InvalidInput),
        FillError::TooLong => Error::from(ErrorKind::InvalidFilename),
    })?;
    str::from_utf8(&room[..n]).map_err(|_| Error::from(ErrorKind::InvalidFilename))
}

// Says on standard error why an argument does not serve.
pub fn refuse_argument<R: Env + Eprint, D: Display + Drop>(rt: &R, i: usize, why: D) {
    let mut room = io::buffer();
    match argument_text(rt, i, &mut room) {
        Ok(name) => say_failure(rt, name, why),
        Err(error) => say_failure(rt, "argument", error),
    }
}

// Nothing is read: standard error says why.
fn unread<R: Eprint>(rt: &R, what: &str, error: Error) -> ReadFailed
    ensures { result.count ≡ 0 }
{
    say_failure(rt, what, error);
    ReadFailed { error, count: 0 }
}

// Reads an opened file. Where that fails, standard error says why.
fn read_opened<R: Eprint, F: Read>(
    rt: &R,
    name: &str,
    file: &mut F,
    buffer: &mut [u8],
) -> Result<usize, ReadFailed>
    ensures { IsPrefixLen (bytes_read result) buffer.new }
{
    read_input(file, buffer).inspect_err(|failed| say_failure(rt, name, failed.error))
}

// Reads the file that an argument names. Where that fails, standard error says why.
pub fn read_argument<R: Env + Files + Eprint>(
    rt: &R,
    i: usize,
    buffer: &mut [u8],
) -> Result<usize, ReadFailed>
    ensures { IsPrefixLen (bytes_read result) buffer.new }
{
    let mut room = io::buffer();
    let name = argument_text(rt, i, &mut room).map_err(|error| unread(rt, "argument", error))?;
    let mut file = fs::open(rt, name).map_err(|error| unread(rt, name, error))?;
    read_opened(rt, name, &mut file, buffer)
}

// Reads the file `langs` of the folder that the program runs in; where there is none, the list is empty. Where reading fails, standard
// error says why.
pub fn read_langs<R: Files + Eprint>(rt: &R, buffer: &mut [u8]) -> Result<usize, ReadFailed>
    ensures { IsPrefixLen (bytes_read result) buffer.new }
{
    let name = "langs";
    match fs::open(rt, name) {
        Ok(mut file) => read_opened(rt, name, &mut file, buffer),
        Err(error) if error.kind() == ErrorKind::NotFound => Ok(0),
        Err(error) => Err(unread(rt, name, error)),
    }
}

// Whether an argument is this word.
pub fn argument_is<R: Env>(rt: &R, i: usize, word: &[u8]) -> bool {
    let mut room = io::buffer();
    matches!(rt.arg(i, &mut room), Ok(n) if same(&room[..n], word))
}

// Writes an argument to standard output, as it was given.
pub fn write_argument<R: Env + Print>(rt: &R, i: usize) {
    let mut room = io::buffer();
    if let Ok(n) = rt.arg(i, &mut room) {
        let _ = rt.write_all(&room[..n]);
    }
}
