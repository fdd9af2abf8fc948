//! What the words of a program's command line name: files, a DOI, a number of workers, a flow and versions of the tables. Each is read
//! without memory, since whether words are a form of a program is answered without any; contracts see what the word names. Beside them
//! stand the words of the process that runs, for the `main` of each program.

mod doi;
mod file_name;
mod process;
mod versions;
mod workers;

pub use doi::NamedDoi;
pub use file_name::NamedFile;
pub use process::words_of;
pub use versions::{NamedVersions, read_number};
pub use workers::Workers;
