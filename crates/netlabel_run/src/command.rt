//! What the words of the command line ask for.

use label_commands::{NamedDoi, NamedFile, NamedVersions, Workers};
use mls_label::Label;
use std::marker::Model;

/// A command with what its words name.
#[derive(Debug, Drop)]
pub(crate) enum Command<'a> {
    /// `judge`: one raw packet, received by a receiver of this level whose node knows this DOI alone.
    Judge {
        doi: NamedDoi,
        level: Level<'a>,
        file: NamedFile<'a>,
    },
    /// `check`: what a script's commands answer.
    Check {
        file: NamedFile<'a>,
    },
    /// `show`: what each packet of a capture carries.
    Show {
        file: NamedFile<'a>,
    },
    /// `agree`: whether every two neighbouring hops of a script's flow agree, under these versions of the tables.
    Agree {
        file: NamedFile<'a>,
        flow: u32,
        versions: Option<NamedVersions<'a>>,
    },
    /// `make`: the capture of so many packets that is made from a number, and what becomes of them.
    Make {
        seed: u64,
        count: u32,
        file: NamedFile<'a>,
    },
    /// `run`: the flows of a script, with so many workers.
    Run {
        file: NamedFile<'a>,
        workers: Workers,
    },
}

/// A label that is lent.
#[derive(Debug, Drop)]
pub(crate) struct Level<'a> {
    label: &'a Label,
}

impl<'a> Model for Level<'a> {
    ghost use Rattle.mls_label.specs.declared.label.Label.{Label};

    ghost Value = { Label };

    ghost view = { λ l. l.label.now };
}

impl<'a> Level<'a> {
    ghost use Rattle.std.specs.Prelude.{◌≡◌};

    pub(crate) fn new(label: &'a Label) -> Level<'a>
        ensures { result ≡ label.now }
    {
        Level { label }
    }

    pub(crate) fn label(&self) -> &'a Label
        ensures { result.now ≡ self.now }
    {
        self.label
    }
}
