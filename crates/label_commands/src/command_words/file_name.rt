//! The name of a file that a word is.

use crate::flow_lines::is_file_name;
use std::marker::Model;

/// The name of a file: 1 to 127 printable ASCII characters without spaces, and neither `-` nor `#` in front. Contracts see its octets.
#[derive(Debug, Drop)]
pub struct NamedFile<'a> {
    name: &'a str,
}

impl<'a> Model for NamedFile<'a> {
    ghost use Rattle.std.specs.Prelude.{List, ℕ};

    ghost Value = { List ℕ };

    ghost view = { λ f. f.name.now };
}

impl<'a> NamedFile<'a> {
    ghost use Rattle.std.specs.Prelude.{◌≡◌, IsTrue, IfSome, IfNone};
    ghost use Rattle.label_commands.specs.flow_lines.FileName.{is_file_name, file_name_of_text};

    /// The name that a word is, where it is one.
    pub fn named(word: &'a str) -> Option<NamedFile<'a>>
        ensures { result ≡ file_name_of_text word.now }
    {
        if !is_file_name(word.as_bytes()) {
            return None;
        }
        Some(NamedFile { name: word })
    }

    /// The word.
    pub fn as_str(&self) -> &'a str
        ensures { result.now ≡ self.now }
    {
        self.name
    }
}
