//! The script, its flow and the versions of its tables that the words of a command line name. `script_of` reads a script whole, and where
//! there is none tells why, and `script_with_text` also keeps its text; `answer_hops` answers a question on every two neighbouring hops of a flow, which `Compares` puts. Contracts say
//! what was read and printed. How a call ends then, by what its program says, are terms in `proofs/Law.antt`.

mod answer;
mod compare;
mod flow;
mod script;

pub use answer::answer_hops;
pub use compare::{Compares, HopAt};
pub use script::{script_of, script_with_text};
