//! Names of reports.

use std::marker::Model;

/// Names of reports, as the words that are these. Contracts see the names: where there is no word, that of the standard input.
#[derive(Debug, Drop)]
pub(crate) struct ReportNames<'a> {
    pub(crate) words: &'a [String],
}

impl<'a> Model for ReportNames<'a> {
    ghost use Rattle.std.specs.Prelude.{List, ℕ};
    ghost use Rattle.label_commands.specs.command_words.Words.{texts_of};
    ghost use Rattle.netlabel_report.specs.Names.{reports_named};

    ghost Value = { List (List ℕ) };

    ghost view = { λ n. reports_named (texts_of n.words.now) };
}
