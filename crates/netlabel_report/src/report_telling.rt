//! How the lines of reports are told: added up, the packets alone that were denied, or each line as a record of JSON (RFC 8259) or of CSV (RFC 4180).
//! `line_kind` says what a line is behind those before it, `tell_line` appends how it is told, and `count_line` counts it; `tell_end` and `count_end` do so at a
//! report's end. The lines are those of `report_lines`. Another way is a variant of `Way`, its text of a line in `specs/Taking.antt`, and its writer.

mod commands;
mod counts;
mod csv;
mod json;
mod quoted;
mod summary;
mod taking;
mod way;

pub use commands::{CommandPlace, Commands};
pub use counts::{Progress, Tallies, risen, start};
pub use csv::heading;
pub use mls_label::OutOfMemory;
pub use summary::write_summary;
pub use taking::{LineKind, count_end, count_line, line_kind, tell_end, tell_line, write_fault};
pub use way::{Manner, Way};

#[cfg(test)]
mod tests;
