//! The report of a run, read through a window of its file: whether a text stands at a place, and which versions the line there
//! names at its end. No line is held whole, and memory doesn't grow with the report. Over the named files of `net_io` and the window
//! of `file_window`; the texts are those of `call_report`.

mod meeting;
mod naming;
mod report;
mod window;
mod word;

pub use meeting::{Met, ends_of_lines};
pub use report::ReportFile;
