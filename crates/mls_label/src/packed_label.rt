//! A label in a small place, for batches that keep one for each packet: most labels have few runs, and a label's own room is 8 kB.

ghost use Rattle.std.specs.Prelude.{◌≡◌, ◌++◌, [], OnOk, OnErr};

use crate::cat_set::Run;
use crate::run_list::RunList;
use crate::{Label, OutOfMemory};
use std::alloc::Global;
use std::marker::Model;

// So many runs stand in the place itself.
const FEW: usize = 8;

/// A label that is kept in a small place: its first eight runs stand in it, those behind them on the heap. It is filled again and again,
/// and keeps the room that it has on the heap.
#[derive(Debug, Drop)]
pub struct PackedLabel {
    level: u8,
    few: RunList<FEW>,
    many: Vec<Run>,
}

impl Model for PackedLabel {
    ghost use Rattle.std.specs.Prelude.{◌++◌};
    ghost use Rattle.mls_label.specs.declared.label.Label.{Label};
    ghost use Rattle.mls_label.specs.inside.Kept.{cats_of, AreKeptRuns};

    ghost Value = { Label };

    ghost view = { λ p. record { level = p.level; cats = cats_of (p.few ++ p.many.items) } };

    ghost invariant = { λ p. AreKeptRuns (p.few ++ p.many.items) };
}

impl PackedLabel {
    /// Keeps the label of level 0 without a category. Takes no memory.
    pub fn lowest(alloc: Global) -> PackedLabel
        ensures { result ≡ record { level = 0; cats = [] } }
    {
        PackedLabel {
            level: 0,
            few: RunList::new(),
            many: Vec::new(alloc),
        }
    }

    /// Keeps a copy of the label. One of at most eight runs takes no memory; after an error any label may be kept.
    pub fn keep(&mut self, label: &Label) -> Result<(), OutOfMemory>
        ensures { OnOk result (self.new ≡ label.now) }
    {
        keep_runs(&mut self.few, &mut self.many, label.cats.as_runs())?;
        self.level = label.level;
        Ok(())
    }

    /// Makes a label the one that is kept. It costs what that has.
    pub fn show(&self, label: &mut Label)
        ensures { label.new ≡ self.now }
    {
        label.level = self.level;
        label.cats.assign_runs(self.few.as_slice(), &self.many);
    }
}

// Keeps the runs in place of those before; after an error there are none.
fn keep_runs(few: &mut RunList<FEW>, many: &mut Vec<Run>, runs: &[Run]) -> Result<(), OutOfMemory>
    ensures ok { OnOk result (few.new ++ many.new.items ≡ runs.now) }
    ensures err { OnErr result (few.new ++ many.new.items ≡ []) }
{
    few.clear();
    many.clear();
    if runs.len() > FEW {
        let (front, back) = runs.split_at(FEW);
        many.extend_from_slice(back)?;
        few.extend(front);
    } else {
        few.extend(runs);
    }
    Ok(())
}
