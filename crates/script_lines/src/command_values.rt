//! The values of a command's words (netlabelctl(8)): DOIs, lists of tags and of pairs of numbers, the protocols of a map, the ranges
//! of static entries and of receivers, and addresses of one family. Each has one reader, and one written form that reads back.
//! Contracts see a DOI as its number, a list as a list, a protocol as that of a map and a range as its two labels.

mod addresses;
mod doi;
pub mod laws;
mod list;
mod number;
mod pairs;
mod parts;
mod protocol;
mod ranges;
mod tags;

pub use addresses::{read_four, read_six};
pub use doi::{Doi, read_doi};
pub use list::{CommaList, ListEntry};
pub use pairs::{CategoryPairs, LevelPairs, ReadingCategories, ReadingLevels};
pub use parts::{around, is_word};
pub use protocol::{MapProtocol, read_map_protocol, write_map_protocol};
pub use ranges::{
    read_receiver_range, read_static_range, write_receiver_range, write_static_range,
};
pub use tags::Tags;
