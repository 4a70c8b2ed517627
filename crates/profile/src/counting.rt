// The counting definitions over a test that the caller gives: each function is the definition of the same name, and `all` that of `every`,
// of any test that a closure computes. `how_many` and `sum` are loops: by `map(..).sum()` the goal `sum-requires-clause-fits` and those of
// the clauses stayed open, and the check asked that each value of the closure's type may be called, which is more than a caller shows.
ghost use Rattle.std.specs.Prelude.{ℕ, Bool, true, ◌*◌, ◌<◌, ◌≤◌, ◌≡◌};
ghost use Rattle.profile.specs.Counting.{ComputesBelow, any, every, how_many, lowest, sum};

// Whether some number below n passes.
pub fn any<F: Fn(u16) -> bool>(n: u16, test: F) -> bool
    requires { F.IsAlwaysCallable test }
    ensures { (p : ℕ → Bool) → ComputesBelow n (F.post test) p → result ≡ any p n }
{
    (0..n).any(|i| test(i))
}

// How many numbers below n pass.
#[tactic(auto, unfolding(crate::specs::Counting::how_many))]
pub fn how_many<F: Fn(u16) -> bool>(n: u16, test: F) -> u16
    requires { F.IsAlwaysCallable test }
    ensures counted { (p : ℕ → Bool) → ComputesBelow n (F.post test) p → result ≡ how_many p n }
    ensures at_most { result ≤ n }
{
    let mut found = 0;
    for i in 0..n {
        found += u16::from(test(i));
    }
    found
}

// What a closure gives the numbers below n, added up.
#[tactic(auto, unfolding(crate::specs::Counting::sum))]
pub fn sum<F: Fn(u16) -> u16>(n: u16, part: F) -> u32
    requires { F.IsAlwaysCallable part }
    ensures added { (f : ℕ → ℕ) → ComputesBelow n (F.post part) f → result ≡ sum f n }
    ensures at_most { result ≤ 65535 * n }
{
    let mut total = 0;
    for i in 0..n {
        total += u32::from(part(i));
    }
    total
}

// The lowest number below n that passes, or n: a number and no `Option`, as the definition has it, by which verdicts and relations compare
// it with n.
pub fn lowest<F: Fn(u16) -> bool>(n: u16, test: F) -> u16
    requires { F.IsAlwaysCallable test }
    ensures { (p : ℕ → Bool) → ComputesBelow n (F.post test) p → result ≡ lowest p n }
{
    (0..n).find(|i| test(*i)).unwrap_or(n)
}

// Whether every number below n passes, ending at the first that doesn't. Where the test itself shows no more than that a number is good
// if it passes, `each` is what is known.
pub fn all<F: Fn(u16) -> bool>(n: u16, test: F) -> bool
    requires { F.IsAlwaysCallable test }
    ensures computed { (p : ℕ → Bool) → ComputesBelow n (F.post test) p → result ≡ every p n }
    ensures each { result ≡ true → (i : ℕ) → i < n → F.post test i true }
{
    (0..n).all(|i| test(i))
}
