// Programs that are lent a sheet and a list of languages: both are read and handed to `tell`, two arguments as in the definitions. Each
// function here makes room for the two, reads them and gives up at the first that is not read, of which standard error says why; they differ
// in who reads and in what a failure says, so that one for both would take two closures that read. The two programs over `tell_input`, and
// the two test programs over `tell_files`, each have a `main` of their own: what they share besides is how they ask for their arguments.
ghost use Rattle.std.specs.Prelude.{IfSome};
ghost use Rattle.text.specs.Sheets.{Told};

use crate::output::say_failure;
use crate::reading::{LANGS_ROOM, read_argument, read_input, read_langs};
use std::env::Env;
use std::fs::Files;
use std::io::Input;

// Hands over the sheet on standard input, and the list in the file `langs` of the folder that the program runs in.
pub fn tell_input<R: Input + Files + Eprint, T, F: FnOnce(&[u8], &[u8]) -> T>(
    rt: &R,
    tell: F,
) -> Option<T>
    requires { F.IsAlwaysCallable tell }
    ensures { IfSome result (Told (F.post tell)) }
{
    let mut langs = [0u8; LANGS_ROOM];
    let list = read_langs(rt, &mut langs).ok()?;
    let mut sheet = io::large_buffer();
    match read_input(&mut rt.reader(), &mut sheet) {
        Ok(count) => Some(tell(&sheet[..count], &langs[..list])),
        Err(failed) => {
            say_failure(rt, "standard input", failed.error);
            None
        }
    }
}

// Hands over the sheet and the list whose files two arguments name. `list_at` and `sheet_at` are the numbers of the arguments.
pub fn tell_files<R: Env + Files + Eprint, T, F: FnOnce(&[u8], &[u8]) -> T>(
    rt: &R,
    list_at: usize,
    sheet_at: usize,
    tell: F,
) -> Option<T>
    requires { F.IsAlwaysCallable tell }
    ensures { IfSome result (Told (F.post tell)) }
{
    let mut langs = [0u8; LANGS_ROOM];
    let list = read_argument(rt, list_at, &mut langs).ok()?;
    let mut sheet = io::large_buffer();
    let count = read_argument(rt, sheet_at, &mut sheet).ok()?;
    Some(tell(&sheet[..count], &langs[..list]))
}
