// Lists with two entries alike: short lists by their pairs, long ones by a table of what was seen. That a lent table is right is a premise,
// as lib.rt tells.
ghost use Rattle.std.specs.Prelude.{ℕ, suc, ◌<◌, eqb, get_or, length, cond, not, ◌≡◌};
ghost use Rattle.profile.specs.Counting.{ComputesBelow};
ghost use Rattle.profile.specs.Relations.{channels, owner};
ghost use Rattle.profile.specs.Rules.{repeats};
ghost use Rattle.runs.specs.steps.Runs.{RepeatRight};
ghost use Rattle.rules.specs.steps.Loops.{bad_channel, differ_in_one_group, keys_alike, sets_differ_in_group};
ghost use Rattle.sheet.specs.Words.{sheet_of};
ghost use Rattle.sheet.specs.Fields.{objects, programmes, set_list, track_list};
ghost use Rattle.sheet.specs.Layout.{number};
ghost use Rattle.tables.specs.steps.Marks.{Standing};
ghost use Rattle.tables.specs.steps.Right.{Owners, GroupsTabled, told};

use crate::differences::sets_differ;
use relations::entries::{any_entry, two_entries};
use relations::programmes::named_set;
use runs::reads::look_up;
use sheet::fields::{OBJECTS, PROGRAMMES, SET_LIST, TRACK_LIST, TRACK_ORDINAL, TRACKS};
use sheet::layout::{entry, field, number};
use sheet::spans::Span;
use std::mem::replace;
use tables::GroupTables;
use tables::reads::owner_by;

// Marks a number as seen, and tells whether it was before. By 1 and 0, and no `bool`: `Standing`, by which the laws speak of a table, is of
// words.
#[tactic(auto, using(tables::proofs::MarkLaws::set_standing))]
fn see(seen: &mut [u16; 65536], x: u16) -> bool
    ensures { (result ≡ not (eqb (get_or seen.old x 0) 0)) × Standing (λ z. cond (eqb x z) 1 (get_or seen.old z 0)) seen.new }
{
    replace(&mut seen[usize::from(x)], 1) != 0
}

// Whether two entries of the list at a position of a record have the same key. It stays apart, so that its table is not in
// the frames of its callers.
#[inline(never)]
pub fn keys_alike<F: Fn(u16) -> u16>(s: &[u8], section: u8, k: u16, at: u8, key: F) -> bool
    requires { F.IsAlwaysCallable key }
    ensures { (f : ℕ → ℕ) → ComputesBelow 65536 (F.post key) f → result ≡ keys_alike (sheet_of s.now) section k at f }
{
    let mut seen: [u16; 65536] = [0; 65536];
    for j in 0..number(s, section, k, at) {
        if see(&mut seen, key(entry(s, section, k, at, j))) {
            return true;
        }
    }
    false
}

// A list of so many entries is compared by pairs, a longer one by a table.
const SHORT: u16 = 48;

// Whether two entries of the list at a position of a record have the same key: of a short list by its pairs, of a longer one by
// `keys_alike`.
fn alike<F: Fn(u16) -> u16>(s: &[u8], section: u8, k: u16, at: u8, key: F) -> bool
    requires { F.IsAlwaysCallable key }
    ensures { (f : ℕ → ℕ) → ComputesBelow 65536 (F.post key) f → result ≡ keys_alike (sheet_of s.now) section k at f }
{
    let list = Span::at(s, section, k, at);
    if list.count <= SHORT {
        two_entries(s, list.entries(s), |x, y| key(x) == key(y))
    } else {
        keys_alike(s, section, k, at, key)
    }
}

// The list at a position of a record has one entry at two of its places.
pub fn repeats(s: &[u8], section: u8, k: u16, at: u8) -> bool
    ensures { result ≡ repeats (sheet_of s.now) section k at }
{
    alike(s, section, k, at, |e| e)
}

// The same, by the table where it has the list.
pub fn repeats_by(s: &[u8], next: &[u16], section: u8, k: u16, at: u8) -> bool
    ensures { RepeatRight (sheet_of s.now) next.now → result ≡ repeats (sheet_of s.now) section k at }
{
    look_up(s, next, section, k, at).unwrap_or_else(|| repeats(s, section, k, at))
}

// A programme names two sets of one object.
pub fn one_owner(s: &[u8], owners: &[u16], p: u16) -> bool
    ensures { Owners (sheet_of s.now) owners.now → result ≡ keys_alike (sheet_of s.now) programmes p set_list (owner (sheet_of s.now)) }
{
    alike(s, PROGRAMMES, p, SET_LIST, |v| owner_by(s, owners, v))
}

// Whether some channel of n is not the ordinal of exactly one of the object's n tracks: some ordinal is too high, or two are alike.
pub fn bad_ordinals(s: &[u8], o: u16) -> bool
    ensures { number (sheet_of s.now) objects o track_list ≡ channels (sheet_of s.now) o → result ≡ bad_channel (sheet_of s.now) o }
{
    let n = number(s, OBJECTS, o, TRACK_LIST);
    any_entry(s, OBJECTS, o, TRACK_LIST, |t| {
        n <= field(s, TRACKS, t, TRACK_ORDINAL)
    }) | alike(s, OBJECTS, o, TRACK_LIST, |t| {
        field(s, TRACKS, t, TRACK_ORDINAL)
    })
}

// The first place of a group among those passed; where there is none, this one, which is kept. The table has one more than a place, or 0
// for none, and no `Option`: `told` and `Standing`, by which the laws speak of a table, are of words.
#[tactic(auto, unfolding(tables::specs::steps::Right::told), using(crate::proofs::DifferLaws::first_written, crate::proofs::DifferLaws::first_kept))]
fn first_of(first: &mut [u16; 2048], l: u16, j: u16) -> u16
    requires { (l < 2048) × (j < 65535) }
    ensures { (result ≡ told j (get_or first.old l 0)) × Standing (λ z. cond (eqb l z) (suc result) (get_or first.old z 0)) first.new }
{
    let i = usize::from(l);
    match first[i].checked_sub(1) {
        Some(place) => place,
        None => {
            first[i] = j + 1;
            j
        }
    }
}

// Whether two sets are of one group, and differ.
fn differ_in_one_group(s: &[u8], tables: &GroupTables, u: u16, v: u16) -> bool
    ensures { GroupsTabled (sheet_of s.now) tables.now → result ≡ differ_in_one_group (sheet_of s.now) u v }
{
    if tables.leader_of_set(s, u) == tables.leader_of_set(s, v) {
        sets_differ(s, u, v)
    } else {
        false
    }
}

// Whether the sets that a programme names differ within a group, pair by pair.
fn group_pairs_differ(s: &[u8], tables: &GroupTables, p: u16) -> bool
    ensures { GroupsTabled (sheet_of s.now) tables.now → result ≡ sets_differ_in_group (sheet_of s.now) p }
{
    let sets = Span::at(s, PROGRAMMES, p, SET_LIST);
    two_entries(s, sets.entries(s), |u, v| {
        differ_in_one_group(s, tables, u, v)
    })
}

// The same for a long list: each is compared with the first of its group. No sheet has more than 2,046 objects; a larger number would
// be past the table.
fn differ_from_first(s: &[u8], tables: &GroupTables, p: u16) -> bool
    ensures { GroupsTabled (sheet_of s.now) tables.now → result ≡ sets_differ_in_group (sheet_of s.now) p }
{
    let n = number(s, PROGRAMMES, p, SET_LIST);
    let mut first: [u16; 2048] = [0; 2048];
    for j in 0..n {
        let v = named_set(s, p, j);
        let l = tables.leader_of_set(s, v);
        if 2048 <= l {
            return group_pairs_differ(s, tables, p);
        }
        let i = first_of(&mut first, l, j);
        if sets_differ(s, named_set(s, p, i), v) {
            return true;
        }
    }
    false
}

// A short list by its pairs, a long one by a table.
pub fn differ_in_group(s: &[u8], tables: &GroupTables, p: u16) -> bool
    ensures { GroupsTabled (sheet_of s.now) tables.now → result ≡ sets_differ_in_group (sheet_of s.now) p }
{
    if number(s, PROGRAMMES, p, SET_LIST) <= SHORT {
        group_pairs_differ(s, tables, p)
    } else {
        differ_from_first(s, tables, p)
    }
}
