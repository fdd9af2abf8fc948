//! A label on the heap, for tables and lists that keep many: what is moved is a pointer, and not the 8 kB of a label.

ghost use Rattle.std.specs.Prelude.{◌≡◌, IfOk};

use crate::{Label, OutOfMemory};
use std::alloc::Global;
use std::boxed::Box;
use std::marker::Model;

/// A label that is kept on the heap. It has a label's room, whatever it holds, and is filled once.
#[derive(Debug, Drop)]
pub struct KeptLabel {
    kept: Box<Label>,
}

impl Model for KeptLabel {
    ghost use Rattle.mls_label.specs.declared.label.Label.{Label};

    ghost Value = { Label };

    ghost view = { λ k. k.kept.value };
}

impl KeptLabel {
    /// Keeps a copy of the label.
    pub fn of(alloc: Global, label: &Label) -> Result<KeptLabel, OutOfMemory>
        ensures { IfOk result (λ kept. kept ≡ label.now) }
    {
        let mut kept = Box::new(alloc, Label::lowest())?;
        kept.assign(label);
        Ok(KeptLabel { kept })
    }

    /// The label.
    pub fn label(&self) -> &Label
        ensures { result.now ≡ self.now }
    {
        &self.kept
    }
}
