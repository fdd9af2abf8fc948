//! Pairs in ascending order of their first numbers: what they give for a number, and for the categories of a set.

ghost use Rattle.std.specs.Prelude.{◌≡◌, ℕ, ◌+◌, ◌<◌, ◌≤◌, [], ◌∷◌, length, Some, None, Ok, Err, IfOk, IfErr, OnOk, IfNone, IfSome};
ghost use Rattle.std.specs.List.{All};
ghost use Rattle.mls_label.specs.Runs.{runs_of};
ghost use Rattle.doi_table.specs.Pairs.{number_by};
ghost use Rattle.doi_table.specs.Definition.{AreBelow};
ghost use Rattle.doi_table.specs.inside.Sorted.{AreRising};
ghost use Rattle.doi_table.specs.inside.Walk.{joined, walk, GoesOn, StopsAt};

use mls_label::CatSet;

/// A number and what it becomes.
pub type Pair = (u16, u16);

// The pairs that begin with `n` or a higher number.
fn pairs_from(pairs: &[Pair], n: u16) -> &[Pair]
    requires { AreRising 0 pairs.now }
    ensures rising { AreRising n result.now }
    ensures below { (bound : ℕ) → AreBelow bound pairs.now → AreBelow bound result.now }
    ensures fewer { length result.now ≤ length pairs.now }
    ensures same { (m : ℕ) → n ≤ m → number_by pairs.now m ≡ number_by result.now m }
{
    let place = pairs.partition_point(|pair| pair.0 < n);
    &pairs[place..]
}

/// What the pairs give for a number, by binary search.
pub fn number(pairs: &[Pair], n: u16) -> Option<u16>
    requires { AreRising 0 pairs.now }
    ensures { result ≡ number_by pairs.now n }
{
    let [(first, second), ..] = pairs_from(pairs, n) else {
        return None;
    };
    if *first == n { Some(*second) } else { None }
}

/// What pairs of levels give for a level.
pub fn level(pairs: &[Pair], n: u8) -> Option<u8>
    requires rising { AreRising 0 pairs.now }
    requires below { AreBelow 256 pairs.now }
    ensures { result ≡ number_by pairs.now n }
{
    match number(pairs, u16::from(n)) {
        Some(level) => Some(level as u8),
        None => None,
    }
}

/// Fills `into` with what the pairs give for the categories of `from`. The error is the first category that has no pair.
pub fn apply(pairs: &[Pair], from: &CatSet, into: &mut CatSet) -> Result<(), u16>
    requires rising { AreRising 0 pairs.now }
    requires below { AreBelow 65535 pairs.now }
    requires few { length pairs.now ≤ 1952 }
    ensures ok { OnOk result (walk (number_by pairs.now) from.now [] ≡ Ok into.new) }
    ensures err { IfErr result (λ c. walk (number_by pairs.now) from.now [] ≡ Err c) }
{
    into.clear();
    let mut rest = pairs;
    for i in 0..from.runs() {
        let (first, last) = from.run(i);
        rest = apply_run(rest, first, last, into)?;
    }
    Ok(())
}

// Joins to `into` what the pairs give for the categories of a run, and answers the pairs behind them.
fn apply_run<'a>(
    pairs: &'a [Pair],
    first: u16,
    last: u16,
    into: &mut CatSet,
) -> Result<&'a [Pair], u16>
    requires order { first ≤ last }
    requires categories { last < 65535 }
    requires rising { AreRising 0 pairs.now }
    requires below { AreBelow 65535 pairs.now }
    requires room { length (runs_of into.old) + length pairs.now ≤ 1952 }
    ensures ok { IfOk result (λ rest. GoesOn pairs.now rest.now first last into.old into.new) }
    ensures rising { IfOk result (λ rest. AreRising 0 rest.now) }
    ensures below { IfOk result (λ rest. AreBelow 65535 rest.now) }
    ensures room { IfOk result (λ rest. length (runs_of into.new) + length rest.now ≤ 1952) }
    ensures err { IfErr result (λ c. StopsAt pairs.now first last into.old c) }
{
    let mut rest = pairs_from(pairs, first);
    for c in first..last + 1 {
        rest = match apply_one(rest, c, into) {
            Some(behind) => behind,
            None => return Err(c),
        };
    }
    Ok(rest)
}

// The same for one category, which none of the pairs begins below.
fn apply_one<'a>(pairs: &'a [Pair], c: u16, into: &mut CatSet) -> Option<&'a [Pair]>
    requires rising { AreRising c pairs.now }
    requires below { AreBelow 65535 pairs.now }
    requires room { length (runs_of into.old) + length pairs.now ≤ 1952 }
    ensures some { IfSome result
        (λ behind. (d : ℕ) × (pairs.now ≡ (c, d) ∷ behind.now) × (into.new ≡ joined into.old d)) }
    ensures room { IfSome result (λ behind. length (runs_of into.new) + length behind.now ≤ 1952) }
    ensures none { IfNone result (number_by pairs.now c ≡ None) }
{
    let [(first, second), behind @ ..] = pairs else {
        return None;
    };
    if *first != c {
        return None;
    }
    into.insert_run(*second, *second);
    Some(behind)
}
