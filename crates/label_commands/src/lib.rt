//! Scripts: `node` lines, commands (netlabelctl(8)), readings and flows, read line by line. The first fault is told with its line, its
//! octet and its kind, and the first limit that is passed with its number. Contracts see a script as the lists of its nodes, steps,
//! flows and readings, which are what its lines say together.
#![tactic(auto)]

pub mod command_words;
mod draft;
pub mod flow_lines;
pub mod laws;
mod limit;
mod line;
pub mod node_readings;
mod read;
mod script;
mod stop;

pub use crate::command_words::{
    NamedDoi, NamedFile, NamedVersions, Workers, read_number, words_of,
};
pub use crate::flow_lines::{
    FileName, FlowLine, Flows, Hop, KeptLabel, LineFault, LineStop, NodeNames, Route, Word,
    is_file_name, read_file_name, read_flow, read_name, words_into,
};
pub use crate::node_readings::{Reading, ReadingFault, meaning_dominates};
pub use doi_table::Listed;
pub use domain_map::Name;
pub use limit::SCRIPT_LIMIT;
pub use mls_label::OutOfMemory;
pub use read::read_script;
pub use script::Script;
pub use script_lines::{Command, LimitName, ScriptKind, Step, write_step};
pub use stop::{ScriptFault, ScriptStop};
