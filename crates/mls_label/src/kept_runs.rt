//! The runs behind a set: where a run belongs among them, and how it takes the place of those that it touches.

ghost use Rattle.std.specs.Prelude.{◌≡◌, ℕ, ◌+◌, ◌<◌, ◌≤◌, ◌||◌, ◌↔◌, [], ◌∷◌, ◌++◌, length, take, drop, fold, IsTrue, MatchOption, OnOk, OnErr};
ghost use Rattle.std.specs.List.{AllWithin, splice};
ghost use Rattle.mls_label.specs.Cats.{has, is_within, cats_where, IsSubset};
ghost use Rattle.mls_label.specs.Runs.{runs_of};
ghost use Rattle.mls_label.specs.inside.Kept.{cats_of, AreApart, AreKeptRuns, IsPlace, hull};

use crate::cat_set::{MOST_RUNS, Run, TooManyRuns};
use crate::run_list::RunList;

// How many of the runs end below `bound`.
fn end_below(runs: &[Run], bound: u16) -> usize
    requires { AreApart 0 runs.now }
    ensures within { result ≤ length runs.now }
    ensures below { AllWithin (λ (r : Run). r.last < bound) runs.now 0 result }
    ensures others { AllWithin (λ (r : Run). bound ≤ r.last) runs.now result (length runs.now) }
{
    runs.partition_point(|run| run.last < bound)
}

// How many of the runs begin at `bound` or below.
fn begin_by(runs: &[Run], bound: u16) -> usize
    requires { AreApart 0 runs.now }
    ensures within { result ≤ length runs.now }
    ensures by_bound { AllWithin (λ (r : Run). r.first ≤ bound) runs.now 0 result }
    ensures others { AllWithin (λ (r : Run). bound < r.first) runs.now result (length runs.now) }
{
    runs.partition_point(|run| run.first <= bound)
}

// The least run that holds `run` and all of `runs`.
fn hull_with(runs: &[Run], run: Run) -> Run
    ensures { result ≡ fold hull run runs.now }
{
    runs.iter().fold(
        run,
        |hull, next| Run {
            first: hull.first.min(next.first),
            last: hull.last.max(next.last),
        },
    )
}

// Whether the run is behind all others and touches none.
fn is_behind(runs: &[Run], run: Run) -> bool
    requires { AreApart 0 runs.now }
    ensures { IsTrue result
        → AllWithin (λ (r : Run). r.last + 1 < run.first) runs.now 0 (length runs.now) }
{
    match runs.last() {
        Some(last) => last.last < run.first.saturating_sub(1),
        None => true,
    }
}

// Where the run belongs: it touches those from the first of the two places to the second.
fn place_of(runs: &[Run], run: Run) -> (usize, usize)
    requires apart { AreApart 0 runs.now }
    requires order { run.first ≤ run.last }
    requires categories { run.last < 65535 }
    ensures { IsPlace runs.now run result.0 result.1 }
{
    let start = end_below(runs, run.first.saturating_sub(1));
    let end = begin_by(runs, run.last + 1);
    (start, end)
}

/// Adds a run. After an error nothing has changed.
pub fn join(runs: &mut RunList<MOST_RUNS>, run: Run) -> Result<(), TooManyRuns>
    requires kept { AreKeptRuns runs.old }
    requires order { run.first ≤ run.last }
    requires categories { run.last < 65535 }
    ensures kept { OnOk result (AreKeptRuns runs.new) }
    ensures cats { OnOk result (cats_of runs.new
        ≡ cats_where (λ c. has (cats_of runs.old) c || is_within run.first run.last c)) }
    ensures one_more { OnOk result (length runs.new ≤ length runs.old + 1) }
    ensures too_many { OnErr result (MOST_RUNS < length (runs_of
        (cats_where (λ c. has (cats_of runs.old) c || is_within run.first run.last c)))) }
    ensures full { OnErr result (length runs.old ≡ MOST_RUNS) }
    ensures err { OnErr result (runs.new ≡ runs.old) }
{
    // Mostly runs come in ascending order.
    if is_behind(runs.as_slice(), run) {
        return put_last(runs, run);
    }
    let (start, end) = place_of(runs.as_slice(), run);
    let hull = hull_with(&runs.as_slice()[start..end], run);
    put(runs, start, end, hull)
}

// Puts a run behind all others, of which it touches none. After an error nothing has changed.
fn put_last(runs: &mut RunList<MOST_RUNS>, run: Run) -> Result<(), TooManyRuns>
    ensures ok { OnOk result (runs.new ≡ runs.old ++ run ∷ []) }
    ensures few { OnOk result (length runs.new ≤ MOST_RUNS) }
    ensures too_many { OnErr result (length runs.old ≡ MOST_RUNS) }
    ensures err { OnErr result (runs.new ≡ runs.old) }
{
    if runs.len() < MOST_RUNS {
        runs.push(run);
        Ok(())
    } else {
        Err(TooManyRuns)
    }
}

/// Adds a run that is behind all others and touches none.
pub fn append(runs: &mut RunList<MOST_RUNS>, run: Run)
    requires kept { AreKeptRuns runs.old }
    requires order { run.first ≤ run.last }
    requires categories { run.last < 65535 }
    requires room { length runs.old < MOST_RUNS }
    requires behind { (c : ℕ) → IsTrue (has (cats_of runs.old) c) → c + 1 < run.first }
    ensures kept { AreKeptRuns runs.new }
    ensures cats { cats_of runs.new
        ≡ cats_where (λ c. has (cats_of runs.old) c || is_within run.first run.last c) }
    ensures one_more { length runs.new ≤ length runs.old + 1 }
{
    runs.push(run);
}

// Puts `run` in the place of the runs from `start` to `end`. After an error nothing has changed.
fn put(runs: &mut RunList<MOST_RUNS>, start: usize, end: usize, run: Run) -> Result<(), TooManyRuns>
    requires order { start ≤ end }
    requires within { end ≤ length runs.old }
    requires few { length runs.old ≤ MOST_RUNS }
    ensures ok { OnOk result (runs.new ≡ splice runs.old start end (run ∷ [])) }
    ensures few { OnOk result (length runs.new ≤ MOST_RUNS) }
    ensures one_more { OnOk result (length runs.new ≤ length runs.old + 1) }
    ensures too_many { OnErr result ((start ≡ end) × (length runs.old ≡ MOST_RUNS)) }
    ensures err { OnErr result (runs.new ≡ runs.old) }
{
    if start < end {
        replace(runs, start, end, run);
        return Ok(());
    }
    if runs.len() == MOST_RUNS {
        return Err(TooManyRuns);
    }
    runs.insert(start, run);
    Ok(())
}

fn replace(runs: &mut RunList<MOST_RUNS>, start: usize, end: usize, run: Run)
    requires order { start < end }
    requires within { end ≤ length runs.old }
    requires few { length runs.old ≤ MOST_RUNS }
    ensures items { runs.new ≡ splice runs.old start end (run ∷ []) }
    ensures len { length runs.new ≤ length runs.old }
{
    runs.set(start, run);
    // Mostly one run grows, and those behind it stay where they are.
    if start + 1 < end {
        runs.remove(start + 1, end);
    }
}

/// Whether a category is in one of the runs.
pub fn holds(runs: &[Run], c: u16) -> bool
    requires { AreApart 0 runs.now }
    ensures { result ≡ has (cats_of runs.now) c }
{
    let place = end_below(runs, c);
    place < runs.len() && runs[place].first <= c
}

/// Whether each category of the inner runs is one of the outer. Where the first of the outer runs is round all, no list has to be walked.
pub fn is_inside(inner: &[Run], outer: &[Run]) -> bool
    requires inner_apart { AreApart 0 inner.now }
    requires outer_apart { AreApart 0 outer.now }
    ensures { IsTrue result ↔ IsSubset (cats_of inner.now) (cats_of outer.now) }
{
    is_within_first(inner, outer) || is_inside_by_walk(inner, outer)
}

// Whether the first of the outer runs is round all of the inner ones.
fn is_within_first(inner: &[Run], outer: &[Run]) -> bool
    requires { AreApart 0 inner.now }
    ensures { IsTrue result → IsSubset (cats_of inner.now) (cats_of outer.now) }
{
    let [cover, ..] = outer else {
        return false;
    };
    let [first, ..] = inner else {
        return false;
    };
    let last = inner[inner.len() - 1];
    cover.first <= first.first && last.last <= cover.last
}

// The same by a walk, once over both lists.
fn is_inside_by_walk(mut inner: &[Run], mut outer: &[Run]) -> bool
    requires inner_apart { AreApart 0 inner.now }
    requires outer_apart { AreApart 0 outer.now }
    ensures { IsTrue result ↔ IsSubset (cats_of inner.now) (cats_of outer.now) }
{
    while let [run, rest @ ..] = inner {
        let [cover, covers @ ..] = outer else {
            return false;
        };
        if cover.last < run.first {
            outer = covers;
        } else if cover.first <= run.first && run.last <= cover.last {
            inner = rest;
        } else {
            return false;
        }
    }
    true
}

/// How many categories the runs have.
pub fn count_of(runs: &[Run]) -> u32
    requires { AreApart 0 runs.now }
    ensures { result ≡ length (cats_of runs.now) }
{
    let mut count = 0;
    for run in runs {
        count += u32::from(run.last - run.first) + 1;
    }
    count
}

/// The last category of the last run.
pub fn highest_of(runs: &[Run]) -> Option<u16>
    requires { AreApart 0 runs.now }
    ensures { MatchOption result (cats_of runs.now ≡ []) (λ c. IsTrue (has (cats_of runs.now) c)
        × ((d : ℕ) → IsTrue (has (cats_of runs.now) d) → d ≤ c)) }
{
    let run = runs.last()?;
    Some(run.last)
}

/// Takes these runs in place of its own.
pub fn assign(runs: &mut RunList<MOST_RUNS>, from: &[Run])
    requires { length from.now ≤ MOST_RUNS }
    ensures { runs.new ≡ from.now }
{
    runs.clear();
    runs.extend(from);
}

/// Takes the runs of both parts in place of its own.
pub fn assign_parts(runs: &mut RunList<MOST_RUNS>, front: &[Run], back: &[Run])
    requires { length (front.now ++ back.now) ≤ MOST_RUNS }
    ensures { runs.new ≡ front.now ++ back.now }
{
    assign(runs, front);
    if !back.is_empty() {
        runs.extend(back);
    }
}
