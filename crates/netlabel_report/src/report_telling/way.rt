//! The ways in which reports are told.

use crate::report_telling::commands::Commands;

/// How reports are told.
#[derive(Clone, Copy, Debug)]
pub enum Way {
    /// Added up.
    Summary,
    /// The packets that were denied alone.
    Denied,
    /// Each line as a record of JSON (RFC 8259), or of CSV (RFC 4180).
    Json,
    Csv,
}

/// How reports are told, and by which script's commands.
#[derive(Drop)]
pub struct Manner {
    pub way: Way,
    pub commands: Commands,
}
