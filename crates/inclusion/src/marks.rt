// Places of a table, by number.
ghost use Rattle.std.specs.Prelude.{◌-◌, ◌<◌, ◌≤◌, IsSome, SomeIff, eqb, get_or, length, cond, ◌≡◌};
ghost use Rattle.tables.specs.steps.Marks.{Standing};

use tables::reads::look;

// Writes `to` at a place where `from` stands.
#[tactic(auto, using(crate::proofs::PassLaws::written))]
pub fn change(table: &mut [u16], x: u16, from: u16, to: u16) -> Option<()>
    ensures { (length table.new ≡ length table.old) × (IsSome result → (x < length table.old) × (get_or table.old x 0 ≡ from) × Standing (λ z. cond (eqb x z) to (get_or table.old z 0)) table.new) }
{
    if look(table, x)? != from {
        return None;
    }
    table[usize::from(x)] = to;
    Some(())
}

// What stands at a place, 0 past the end.
#[tactic(auto, using(crate::proofs::PassLaws::looked))]
pub fn at(table: &[u16], x: u16) -> u16
    ensures { result ≡ get_or table.now x 0 }
{
    look(table, x).unwrap_or(0)
}

// The number that a place tells of, one less than what stands there: none where that is 0, or past the end.
pub fn told_at(table: &[u16], x: u16) -> Option<u16>
    ensures { SomeIff result (1 ≤ get_or table.now x 0) (get_or table.now x 0 - 1) }
{
    at(table, x).checked_sub(1)
}
