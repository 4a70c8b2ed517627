// The commands of the listening bench, a line each:
//     programme N | object N | gain N V | offset N V | list | state
// N is 0 to 65535, V is -32768 to 32767 tenths, or `silence` for a gain. Any other line is none.
ghost use Rattle.std.specs.Prelude.{Some, ◌≡◌};
ghost use Rattle.console.specs.Commands.{alone, command_of, with_number, with_value};

use text::lines::{field, field_count, same};
use text::numbers::{gain_value_of, number_of, tenths_of};
use values::Gain;

// A call of the listener.
#[derive(Clone, Copy)]
pub enum Call {
    Programme(u16),
    Object(u16),
    Gain(u16, Gain),
    Offset(u16, i16),
}

#[derive(Clone, Copy)]
pub enum Command {
    Call(Call),
    List,
    State,
}

// The command that a line says, if it is one.
#[tactic(auto, unfolding(crate::specs::Commands::command_of, crate::specs::Commands::with_number, crate::specs::Commands::with_value), using(crate::proofs::CommandLaws::one_field, crate::proofs::CommandLaws::two_fields, crate::proofs::CommandLaws::three_fields, crate::proofs::CommandLaws::other_fields))]
pub fn command_of(line: &[u8]) -> Option<Command>
    ensures { result ≡ command_of line.now }
{
    match field_count(line) {
        1 => alone(field(line, 0)),
        2 => with_number(field(line, 0), number_of(field(line, 1))?),
        3 => with_value(field(line, 0), number_of(field(line, 1))?, field(line, 2)),
        _ => None,
    }
}

// A name is told by `same`, as in the definitions. `match name { b"list" => .., b"state" => .., _ => .. }` was tried in `alone`: it has 13
// goals. With `same` unfolded and a lemma that a text of another length is another text, the check finds 11; the last two, of a name of the
// right length that differs in one byte, stay open, and an answer to them could only cite facts that have no name in the source.

// `list` and `state`.
#[tactic(auto, unfolding(crate::specs::Commands::alone))]
fn alone(name: &[u8]) -> Option<Command>
    ensures { result ≡ alone name.now }
{
    if same(name, b"list") {
        return Some(Command::List);
    }
    if same(name, b"state") {
        return Some(Command::State);
    }
    None
}

// `programme N` and `object N`.
#[tactic(auto, unfolding(crate::specs::Commands::with_number))]
fn with_number(name: &[u8], n: u16) -> Option<Command>
    ensures { result ≡ with_number name.now (Some n) }
{
    if same(name, b"programme") {
        return Some(Command::Call(Call::Programme(n)));
    }
    if same(name, b"object") {
        return Some(Command::Call(Call::Object(n)));
    }
    None
}

// `gain N V` and `offset N V`.
#[tactic(auto, unfolding(crate::specs::Commands::with_value, crate::specs::Commands::gain_command, crate::specs::Commands::offset_command))]
fn with_value(name: &[u8], n: u16, value: &[u8]) -> Option<Command>
    ensures { result ≡ with_value name.now (Some n) value.now }
{
    if same(name, b"gain") {
        return Some(Command::Call(Call::Gain(n, gain_value_of(value)?)));
    }
    if same(name, b"offset") {
        return Some(Command::Call(Call::Offset(n, tenths_of(value)?)));
    }
    None
}
