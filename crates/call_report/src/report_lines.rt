//! Lines of the report of a run or a check, read back. Each form of a line is a row of one table: the words that stand in it, fixed ones and those that
//! say something, each under the name of a field. A line is read as the first form all of whose words fit; else the octet is told of the first
//! word that fits no form which the words before it fit. Labels are texts of SELinux MLS, addresses those of RFC 791 and RFC 4291; the forms are
//! the program's own (docs/formats.md). The next form is a variant of `Form`, a row in `slots` and in `specs/Form.antt`, and its place in `FORMS`.

mod fits;
mod form;
mod label_text;
pub mod laws;
mod line;
mod slot;
mod texts;
mod told;

pub use form::Form;
pub use line::read_line;
pub use slot::{Field, Fixed, Kind, Slot};
pub use texts::{Word, first_word, parts_at, whole_number};
pub use told::{is_field, told_word};
