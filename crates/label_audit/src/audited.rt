//! What an audit comes to.

/// What the lines of a report come to.
#[derive(Clone, Copy, Debug, PartialEq, Eq)]
pub enum Audited {
    /// It is a whole report of a run that may have been.
    Yes,
    /// This line, counted from 1, is the first that no such run prints; behind the last line of the report it is the one that is missing, or
    /// that has no end.
    NoLine { line: u64 },
}
