//! All flows of a script, one after the other, with the replies to the commands above and between them, up to the script's end, an
//! event of a capture, or a call of the outside that fails. Its contract says what is printed, what the captures hold that are made,
//! and which versions of the tables were under each packet. It follows no standard: the order of what is printed is the program's own
//! (docs/guide.md). The next way in which flows may end is an arm in `turn.rt`, with a case in `IsTurnEnd`, and one in `IsDue` and `IsCauseOf` of
//! `specs/Ends.antt` where it has a status of its own.
#![tactic(auto)]

pub mod flow_run;
pub mod laws;
mod replies;
mod run;
mod turn;

pub use crate::flow_run::{FlowEnd, FlowPlace, FlowStop, Runner, run_flow};
pub use call_report::{FlowSeen, Report, Seen, Status};
pub use label_flow::{Gate, OpenGate};
pub use replies::answer_steps;
pub use run::run_script;
