//! What all commands share of what they print: each line of a report, how the report is handed on, and how a call ends. Each line is
//! a definition, and a function that appends it to what waits to be printed; replies to the steps of a script are said of the tables of
//! the nodes. Beside them stand a call's status, the versions that were printed, and the definitions that say what was printed and what
//! has failed outside. Lines and statuses are the program's own (docs/guide.md); in lines labels are spelled as SELinux MLS has them,
//! addresses as RFC 5952 does. The next line is a definition in the file of its noun in `specs/Lines`, and in `src` a function whose
//! contract it is; the next status is a variant in `status.rt`, with its number there and in `specs/Status.antt`; the next way in which
//! a report may end is a case of `Printed` in `specs/Printing.antt`.
#![tactic(auto)]

mod agreement;
mod beginning;
mod capture;
mod denial;
mod ending;
mod fixed;
mod flow;
pub mod laws;
mod made;
mod packet;
mod parts;
mod reply;
mod report;
pub mod report_file;
pub mod report_lines;
mod script;
pub mod script_input;
mod seen;
mod status;
mod walked;
mod whole;

pub use crate::report_file::{Met, ReportFile, ends_of_lines};
pub use crate::report_lines::{
    Field, Fixed, Form, Kind, Slot, Word, first_word, is_field, parts_at, read_line, told_word,
    whole_number,
};
pub use crate::script_input::{Compares, HopAt, answer_hops, script_of, script_with_text};
pub use agreement::{agree_or_disagree, bad_versions, no_flow, write_hops};
pub use capture::write_capture;
pub use denial::write_verdict;
pub use fixed::{PACKETS_LIMIT, done, packet_limit, packets_limit, usage};
pub use flow::{write_flow, write_flow_end};
pub use made::write_made;
pub use mls_label::OutOfMemory;
pub use packet::{write_packet, write_packets_end};
pub use reply::write_reply;
pub use report::Report;
pub use script::{write_ok, write_script_stop};
pub use seen::{FlowSeen, Seen};
pub use status::Status;
pub use walked::WalkLines;
