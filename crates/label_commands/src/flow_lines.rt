//! The flow lines of a script: which capture is read, which one is written, and the hops of each packet in between. A line is read
//! word by word, and a mistake is named at its word. Contracts see the lines above as the list of the nodes that they name and
//! the list of their flows.

mod file_name;
mod flow;
mod flows;
mod hop;
mod hop_text;
pub mod laws;
mod node_names;
mod route;

pub use domain_map::{Name, read_name};
pub use file_name::{FileName, is_file_name, read_file_name};
pub use flow::{FlowLine, read_flow};
pub use flows::Flows;
pub use hop::Hop;
pub use mls_label::KeptLabel;
pub use node_names::NodeNames;
pub use route::Route;
pub use script_lines::{LimitName, LineFault, LineStop, OutOfMemory, ScriptKind, Word, words_into};
