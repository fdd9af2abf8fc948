//! Runs in a list that has its room in itself. To clear it writes no run: those behind its end are of no account.

ghost use Rattle.std.specs.Prelude.{◌≡◌, ℕ, ◌+◌, ◌<◌, ◌≤◌, [], ◌∷◌, ◌++◌, length, take, drop};

use crate::cat_set::Run;
use std::fmt;
use std::marker::Model;

/// At most so many runs. Contracts see them as a list.
#[derive(Drop)]
pub struct RunList<const MOST: usize> {
    places: [Run; MOST],
    count: usize,
}

impl<const MOST: usize> Model for RunList<MOST> {
    ghost use Rattle.std.specs.Prelude.{List, ◌≤◌, take};
    ghost use Rattle.mls_label.specs.declared.cat_set.Run.{Run};

    ghost Value = { List Run };

    ghost view = { λ r. take r.count r.places };

    ghost invariant = { λ r. r.count ≤ MOST };
}

impl<const MOST: usize> fmt::Debug for RunList<MOST> {
    fn fmt<W: fmt::Write>(&self, f: &mut fmt::Formatter<W>) -> fmt::Result {
        f.debug_list().entries(self.as_slice()).finish()
    }
}

impl<const MOST: usize> RunList<MOST> {
    /// No run.
    pub fn new() -> RunList<MOST>
        ensures { result ≡ [] }
    {
        RunList {
            places: [Run { first: 0, last: 0 }; MOST],
            count: 0,
        }
    }

    /// How many runs there are.
    pub fn len(&self) -> usize
        ensures count { result ≡ length self.now }
        ensures few { result ≤ MOST }
    {
        // Where no place is named, the prover doesn't find what a place holds. This costs nothing.
        let _ = &self.places;
        self.count
    }

    /// The runs.
    pub fn as_slice(&self) -> &[Run]
        ensures { result.now ≡ self.now }
    {
        &self.places[..self.count]
    }

    /// Takes all runs out.
    pub fn clear(&mut self)
        ensures { self.new ≡ [] }
    {
        // As in `len`.
        let _ = &self.places;
        self.count = 0;
    }

    /// Puts a run in place of the one that stands there.
    pub fn set(&mut self, place: usize, run: Run)
        requires { place < length self.old }
        ensures { self.new ≡ take place self.old ++ run ∷ drop (place + 1) self.old }
    {
        let places = &mut self.places[..];
        places[place] = run;
    }

    /// Takes the runs from `start` to `end` out; those behind them move up.
    pub fn remove(&mut self, start: usize, end: usize)
        requires order { start ≤ end }
        requires within { end ≤ length self.old }
        ensures { self.new ≡ take start self.old ++ drop end self.old }
    {
        self.places.copy_within(end..self.count, start);
        self.count -= end - start;
    }

    /// Adds a run behind the others.
    pub fn push(&mut self, run: Run)
        requires { length self.old < MOST }
        ensures { self.new ≡ self.old ++ run ∷ [] }
    {
        self.places[self.count] = run;
        self.count += 1;
    }

    /// Puts a run in front of those from this place on.
    pub fn insert(&mut self, place: usize, run: Run)
        requires within { place ≤ length self.old }
        requires room { length self.old < MOST }
        ensures { self.new ≡ take place self.old ++ run ∷ drop place self.old }
    {
        self.places.copy_within(place..self.count, place + 1);
        self.places[place] = run;
        self.count += 1;
    }

    /// Adds runs behind the others.
    pub fn extend(&mut self, runs: &[Run])
        requires { length self.old + length runs.now ≤ MOST }
        ensures { self.new ≡ self.old ++ runs.now }
    {
        let end = self.count + runs.len();
        let places = &mut self.places[..];
        places[self.count..end].copy_from_slice(runs);
        self.count = end;
    }
}
