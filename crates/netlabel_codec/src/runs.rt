//! Runs of the caller's as a set of categories.

ghost use Rattle.std.specs.Prelude.{◌≡◌, ◌<◌, ◌↔◌, [], length, map, IsTrue, OnOk, OnErr};
ghost use Rattle.mls_label.specs.Runs.{numbers_of, runs_of};
ghost use Rattle.netlabel_codec.specs.Written.{AreRunsFrom, run_ends};

use crate::NetlabelRun;
use mls_label::{CatSet, HIGHEST_CATEGORY, MOST_RUNS, TooManyRuns};

/// Whether the runs ascend, each of them from its first to its last category.
pub(crate) fn ascend(runs: &[NetlabelRun]) -> bool
    ensures { IsTrue result ↔ AreRunsFrom 0 runs.now }
{
    let mut rest = runs;
    let mut low = 0;
    while let [run, behind @ ..] = rest {
        if run.first < low || run.last < run.first || run.last > HIGHEST_CATEGORY {
            return false;
        }
        low = run.last + 1;
        rest = behind;
    }
    true
}

/// Adds the runs to a set without a category. An error says that they need more maximal runs than a set has.
pub(crate) fn add_runs(runs: &[NetlabelRun], cats: &mut CatSet) -> Result<(), TooManyRuns>
    requires ascend { AreRunsFrom 0 runs.now }
    requires empty { cats.old ≡ [] }
    ensures ok { OnOk result (cats.new ≡ numbers_of (map run_ends runs.now)) }
    ensures too_many { OnErr result
        (MOST_RUNS < length (runs_of (numbers_of (map run_ends runs.now)))) }
{
    for run in runs {
        cats.add_run(run.first, run.last)?;
    }
    Ok(())
}
