//! The lines of a script, the words of a line with their places, the forms of lines, and the commands that they make. The forms are
//! those of a node's commands (netlabelctl(8)) and that of readings: one table of fixed words and of parameters that may come in any
//! order, which stands once in the definitions and once in `form.rt`. A line is read word by word, with its first fault told at its
//! place. A command has one written form, which reads back. Contracts see a text as its octets, and a word as its text with the place
//! of its first octet.
#![tactic(auto)]

mod command;
pub mod command_values;
mod copies;
mod fields;
mod form;
pub mod laws;
mod line;
mod made;
mod parameter;
mod parts;
mod row;
mod said;
mod shown;
mod stop;
mod values;
mod word;
mod writing;

pub use crate::command_values::{
    CategoryPairs, CommaList, Doi, LevelPairs, ListEntry, MapProtocol, ReadingCategories,
    ReadingLevels, Tags, around, is_word, read_doi, read_four, read_map_protocol,
    read_receiver_range, read_six, read_static_range, write_map_protocol, write_receiver_range,
    write_static_range,
};
pub use command::{Command, Step};
pub use fields::Fields;
pub use form::{Form, Slot};
pub use line::{first_unfit, next_line};
pub use made::command_of;
pub use mls_label::OutOfMemory;
pub use parameter::Parameter;
pub use row::Row;
pub use said::{Said, begins_line, read_said};
pub use stop::{LimitName, LineFault, LineStop, ScriptKind};
pub use word::{Word, words_into};
pub use writing::write_step;
