//! What makes a report one that a run of its script may print, and whether a report is: definitions, laws on them, and the judging of its
//! lines. Lines of a report are good as far as what is printed of flows that have run lawfully begins with them; a packet's line names the
//! versions of the tables under which the packet was judged, and under these each packet is walked again. A report is read piece by piece,
//! beside the captures of its flows.
#![tactic(auto)]

mod audited;
mod flow;
mod judging;
pub mod laws;
mod place;
mod replies;
mod walker;

pub use audited::Audited;
pub use judging::judge_report;
