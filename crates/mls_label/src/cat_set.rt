//! A set of categories, kept as its maximal runs in ascending order.

ghost use Rattle.std.specs.Prelude.{◌≡◌, ℕ, ◌+◌, ◌<◌, ◌≤◌, ◌||◌, ◌↔◌, [], ◌++◌, length, IsTrue, MatchOption, OnOk, OnErr, slice_get};
ghost use Rattle.mls_label.specs.Cats.{has, is_within, cats_where, IsCats, IsSubset};
ghost use Rattle.mls_label.specs.Runs.{runs_of};
ghost use Rattle.mls_label.specs.inside.Kept.{cats_of, AreKeptRuns};

use crate::kept_runs::{
    append, assign, assign_parts, count_of, highest_of, holds, is_inside, join,
};
use crate::run_list::RunList;
use std::marker::Model;

/// The most maximal runs that a set may have.
pub const MOST_RUNS: usize = 1952;

/// The highest category that there is.
pub const HIGHEST_CATEGORY: u16 = 65534;

/// The set would need more than 1,952 maximal runs.
#[derive(Clone, Copy, Debug, PartialEq, Eq)]
pub struct TooManyRuns;

/// All categories from `first` to `last`, both included.
#[derive(Clone, Copy, Debug, PartialEq, Eq)]
pub struct Run {
    pub first: u16,
    pub last: u16,
}

/// A set of categories from 0 to 65534 that has at most 1,952 maximal runs.
#[derive(Debug, Drop)]
pub struct CatSet {
    runs: RunList<MOST_RUNS>,
}

impl Model for CatSet {
    ghost use Rattle.std.specs.Prelude.{List, ℕ};

    ghost Value = { List ℕ };

    ghost use Rattle.mls_label.specs.inside.Kept.{cats_of, AreKeptRuns};

    ghost view = { λ s. cats_of s.runs };

    ghost invariant = { λ s. AreKeptRuns s.runs };
}

impl CatSet {
    /// The set without a category.
    pub fn empty() -> CatSet
        ensures { result ≡ [] }
    {
        CatSet {
            runs: RunList::new(),
        }
    }

    /// Takes all categories out.
    pub fn clear(&mut self)
        ensures { self.new ≡ [] }
    {
        self.runs.clear();
    }

    /// Adds all categories from `first` to `last`, both included. After an error nothing has changed.
    pub fn add_run(&mut self, first: u16, last: u16) -> Result<(), TooManyRuns>
        requires order { first ≤ last }
        requires categories { last < 65535 }
        ensures ok { OnOk result
            (self.new ≡ cats_where (λ c. has self.old c || is_within first last c)) }
        ensures few { OnOk result (length (runs_of self.new) ≤ MOST_RUNS) }
        ensures too_many { OnErr result
            (MOST_RUNS < length
            (runs_of (cats_where (λ c. has self.old c || is_within first last c)))) }
        ensures one_more { OnOk result (length (runs_of self.new) ≤ length (runs_of self.old) + 1) }
        ensures full { OnErr result (MOST_RUNS ≤ length (runs_of self.old)) }
        ensures err { OnErr result (self.new ≡ self.old) }
    {
        join(&mut self.runs, Run { first, last })
    }

    /// Adds all categories from `first` to `last`, both included, to a set that has room for one more run.
    pub fn insert_run(&mut self, first: u16, last: u16)
        requires order { first ≤ last }
        requires categories { last < 65535 }
        requires room { length (runs_of self.old) < MOST_RUNS }
        ensures cats { self.new ≡ cats_where (λ c. has self.old c || is_within first last c) }
        ensures one_more { length (runs_of self.new) ≤ length (runs_of self.old) + 1 }
    {
        match self.add_run(first, last) {
            Ok(()) => {}
            Err(TooManyRuns) => unreachable!(),
        }
    }

    /// Adds all categories from `first` to `last`, both included, behind those of the set, which has room for one more run. At least one category
    /// is missing between. Where that is known, no run has to be looked for.
    pub fn append_run(&mut self, first: u16, last: u16)
        requires order { first ≤ last }
        requires categories { last < 65535 }
        requires room { length (runs_of self.old) < MOST_RUNS }
        requires behind { (c : ℕ) → IsTrue (has self.old c) → c + 1 < first }
        ensures cats { self.new ≡ cats_where (λ c. has self.old c || is_within first last c) }
        ensures one_more { length (runs_of self.new) ≤ length (runs_of self.old) + 1 }
    {
        append(&mut self.runs, Run { first, last });
    }

    /// Adds one category. After an error nothing has changed.
    pub fn add(&mut self, c: u16) -> Result<(), TooManyRuns>
        requires { c < 65535 }
        ensures ok { OnOk result (self.new ≡ cats_where (λ k. has self.old k || is_within c c k)) }
        ensures few { OnOk result (length (runs_of self.new) ≤ MOST_RUNS) }
        ensures too_many { OnErr result
            (MOST_RUNS < length (runs_of (cats_where (λ k. has self.old k || is_within c c k)))) }
        ensures one_more { OnOk result (length (runs_of self.new) ≤ length (runs_of self.old) + 1) }
        ensures full { OnErr result (MOST_RUNS ≤ length (runs_of self.old)) }
        ensures err { OnErr result (self.new ≡ self.old) }
    {
        self.add_run(c, c)
    }

    /// Whether a category is in the set.
    pub fn contains(&self, c: u16) -> bool
        ensures { result ≡ has self.now c }
    {
        holds(self.runs.as_slice(), c)
    }

    /// Whether each category of this set is in the other.
    pub fn is_subset(&self, of: &CatSet) -> bool
        ensures { IsTrue result ↔ IsSubset self.now of.now }
    {
        is_inside(self.runs.as_slice(), of.runs.as_slice())
    }

    /// Whether both sets have the same categories.
    pub fn same(&self, other: &CatSet) -> bool
        ensures { IsTrue result ↔ (self.now ≡ other.now) }
    {
        self.runs.as_slice() == other.runs.as_slice()
    }

    /// How many maximal runs the set has.
    pub fn runs(&self) -> usize
        ensures count { result ≡ length (runs_of self.now) }
        ensures few { result ≤ MOST_RUNS }
        ensures categories { IsCats self.now }
    {
        self.runs.len()
    }

    /// The first and the last category of a maximal run, both included. The runs ascend from place 0.
    pub fn run(&self, i: usize) -> (u16, u16)
        requires { i < length (runs_of self.now) }
        ensures run { slice_get (runs_of self.now) i ≡ Some result }
        ensures order { result.0 ≤ result.1 }
        ensures categories { result.1 < 65535 }
    {
        let runs = self.runs.as_slice();
        let run = runs[i];
        (run.first, run.last)
    }

    /// How many categories the set has.
    pub fn count(&self) -> u32
        ensures { result ≡ length self.now }
    {
        count_of(self.runs.as_slice())
    }

    /// The highest category, or `None` where the set is empty.
    pub fn highest(&self) -> Option<u16>
        ensures { MatchOption result (self.now ≡ []) (λ c. IsTrue (has self.now c)
            × ((d : ℕ) → IsTrue (has self.now d) → d ≤ c)) }
    {
        highest_of(self.runs.as_slice())
    }

    /// A copy.
    pub fn copy(&self) -> CatSet
        ensures { result ≡ self.now }
    {
        let mut copy = CatSet::empty();
        copy.assign(self);
        copy
    }

    /// Takes the categories of another set in place of its own. It costs what the other has, where a move costs all the room.
    pub fn assign(&mut self, from: &CatSet)
        ensures { self.new ≡ from.now }
    {
        assign(&mut self.runs, from.runs.as_slice());
    }

    // The maximal runs in ascending order.
    pub(crate) fn as_runs(&self) -> &[Run]
        ensures cats { cats_of result.now ≡ self.now }
        ensures kept { AreKeptRuns result.now }
    {
        self.runs.as_slice()
    }

    // Takes these runs in place of its own, those of `front` first.
    pub(crate) fn assign_runs(&mut self, front: &[Run], back: &[Run])
        requires { AreKeptRuns (front.now ++ back.now) }
        ensures { self.new ≡ cats_of (front.now ++ back.now) }
    {
        assign_parts(&mut self.runs, front, back);
    }
}
