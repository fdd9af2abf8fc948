//! What was counted, and where a reading stands.

ghost use Rattle.std.specs.Prelude.{◌≡◌, ◌<◌, length};
ghost use Rattle.netlabel_report.specs.report_telling.Counts.{risen, start_progress};
ghost use Rattle.netlabel_report.specs.inside.Tallies.{raised_at};

use domain_map::Name;
use indexmap::IndexMap;
use mls_label::OutOfMemory;
use std::alloc::Global;
use std::marker::Model;

/// The most places at which denials are told apart.
const MOST_TALLIES: usize = 4096;

/// How many there were of each, and where a reading stands; a number stands still at its type's end.
#[derive(Clone, Copy)]
pub struct Progress {
    /// Reports that were read to their end, those of them that end too early, and those whose last line says what stopped the run.
    pub reports: u64,
    pub unfinished: u64,
    pub stopped: u64,
    pub commands: u64,
    pub refused: u64,
    pub delivered: u64,
    pub sent: u64,
    pub denied: u64,
    /// Those of the denied ones that are in no tally.
    pub elsewhere: u64,
    /// Lines of the report in hand, listed lines that are still to come, and whether its last line has come.
    pub line: u64,
    pub due: u64,
    pub finished: bool,
}

/// Nothing was read yet.
pub fn start() -> Progress
    ensures { result ≡ start_progress }
{
    Progress {
        reports: 0,
        unfinished: 0,
        stopped: 0,
        commands: 0,
        refused: 0,
        delivered: 0,
        sent: 0,
        denied: 0,
        elsewhere: 0,
        line: 0,
        due: 0,
        finished: false,
    }
}

/// One more.
pub fn risen(number: u64) -> u64
    ensures { result ≡ risen number }
{
    if number < u64::MAX {
        number + 1
    } else {
        number
    }
}

/// Where packets are denied: for a reason, at a hop of a node.
#[derive(Debug, Drop, PartialEq, Eq, Hash)]
pub struct DenialPlace {
    pub reason: u64,
    pub hop: u64,
    pub node: Name,
}

/// How many were denied there, and the reason's name as it stood at the first of them.
#[derive(Debug, Drop)]
pub struct DenialCount {
    pub name: Name,
    pub count: u64,
}

/// Denials by their places, in the order of the first of each. Contracts see a tally of each place.
#[derive(Drop)]
pub struct Tallies {
    counts: IndexMap<DenialPlace, DenialCount>,
}

impl Model for Tallies {
    ghost use Rattle.std.specs.Prelude.{List, map};
    ghost use Rattle.netlabel_report.specs.report_telling.Counts.{Tally};
    ghost use Rattle.netlabel_report.specs.inside.Tallies.{tally_at};

    ghost Value = { List Tally };

    ghost view = { λ t. map tally_at t.counts.entries };
}

impl Tallies {
    ghost use Rattle.std.specs.Prelude.{◌≡◌, [], map, OnOk, IfOk};
    ghost use Rattle.netlabel_report.specs.report_telling.Counts.{is_counted, tallied};
    ghost use Rattle.netlabel_report.specs.inside.Tallies.{tally_at};

    /// Nothing was denied yet.
    pub fn new(alloc: Global) -> Tallies
        ensures { result ≡ [] }
    {
        Tallies {
            counts: IndexMap::new(alloc),
        }
    }

    /// The places with their counts.
    pub fn counts(&self) -> &IndexMap<DenialPlace, DenialCount>
        ensures { map tally_at result.now.entries ≡ self.now }
    {
        &self.counts
    }

    /// Counts one more at its place, or at a new one where there is room, and tells whether it was counted.
    pub fn count(&mut self, place: DenialPlace, name: Name) -> Result<bool, OutOfMemory>
        ensures counted { IfOk result (λ counted.
            counted ≡ is_counted place.reason place.hop place.node self.old) }
        ensures tallies { OnOk result
            (self.new ≡ tallied place.reason name place.hop place.node self.old) }
    {
        if let Some(at) = self.counts.get_index_of(&place) {
            raise(&mut self.counts, at);
            return Ok(true);
        }
        if self.counts.len() >= MOST_TALLIES {
            return Ok(false);
        }
        self.counts.insert(place, DenialCount { name, count: 1 })?;
        Ok(true)
    }
}

/// Counts one more at the place of this index.
fn raise(counts: &mut IndexMap<DenialPlace, DenialCount>, at: usize)
    requires { at < length counts.old.entries }
    ensures { counts.new.entries ≡ raised_at counts.old.entries at }
{
    if let Some(denied) = counts.get_index_mut(at) {
        denied.count = risen(denied.count);
    }
}
