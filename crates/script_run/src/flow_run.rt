//! One flow of a script: the packets of its capture are walked beside the steps up to the next flow, a line is printed for each, and
//! those that aren't denied are written to an output capture. A capture is a libpcap or a pcapng file (`captures`), the output in
//! the format of the input.
//! The next way in which a flow may end is a variant in `end.rt`, with a case in each definition of `specs/Ends.antt`.

mod board;
mod end;
mod feed;
mod judged;
pub mod laws;
mod lines;
mod output;
mod run;
mod runner;
mod source;

pub use end::{FlowEnd, FlowPlace, FlowStop};
pub use run::run_flow;
pub use runner::Runner;
