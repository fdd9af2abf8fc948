//! A range on the heap, for tables and lists that keep many: what is moved is a pointer, and not the 16 kB of a range.

ghost use Rattle.std.specs.Prelude.{◌≡◌, IfOk};

use crate::range::Range;
use mls_label::OutOfMemory;
use std::alloc::Global;
use std::boxed::Box;
use std::marker::Model;

/// A range that is kept on the heap. It has a range's room, whatever it holds, and is filled once.
#[derive(Debug, Drop)]
pub struct KeptRange {
    kept: Box<Range>,
}

impl Model for KeptRange {
    ghost use Rattle.mls_range.specs.Range.{LabelRange};

    ghost Value = { LabelRange };

    ghost view = { λ k. k.kept.value };
}

impl KeptRange {
    /// Keeps a copy of the range.
    pub fn of(alloc: Global, range: &Range) -> Result<KeptRange, OutOfMemory>
        ensures { IfOk result (λ kept. kept ≡ range.now) }
    {
        let mut kept = Box::new(alloc, Range::lowest())?;
        kept.assign(range);
        Ok(KeptRange { kept })
    }

    /// The range.
    pub fn range(&self) -> &Range
        ensures { result.now ≡ self.now }
    {
        &self.kept
    }

    /// Keeps the same range once more.
    pub fn copy(&self, alloc: Global) -> Result<KeptRange, OutOfMemory>
        ensures { IfOk result (λ copy. copy ≡ self.now) }
    {
        KeptRange::of(alloc, self.range())
    }
}
