//! Names of files.

ghost use Rattle.std.specs.Prelude.{◌≡◌, IfOk, IsTrue};
ghost use Rattle.std.specs.List.{list_all};
ghost use Rattle.std.specs.Str.{bytes_eq};
ghost use Rattle.label_commands.specs.flow_lines.FileName.{is_file_octet, is_file_name, file_name_of_text};

use mls_label::OutOfMemory;
use std::alloc::Global;
use std::hash::{Hash, Hasher};
use std::marker::Model;
use std::str::from_utf8;

/// The most octets that a file name may have.
const MOST_OCTETS: usize = 127;

/// A file's name as a script spells it: 1 to 127 octets of printable ASCII without a space, neither `-` nor `#` in front.
#[derive(Debug, Drop)]
pub struct FileName {
    name: String,
}

impl Model for FileName {
    ghost use Rattle.std.specs.Prelude.{List, ℕ, IsTrue, string_bytes};
    ghost use Rattle.label_commands.specs.flow_lines.FileName.{is_file_name};

    ghost Value = { List ℕ };

    ghost view = { λ f. string_bytes f.name };

    ghost invariant = { λ f. IsTrue (is_file_name (string_bytes f.name)) };
}

impl FileName {
    /// The text of the name.
    pub fn text(&self) -> &str
        ensures text { result.now ≡ self.now }
        ensures name { IsTrue (is_file_name self.now) }
    {
        self.name.as_str()
    }

    /// A copy.
    pub fn copy(&self, alloc: Global) -> Result<FileName, OutOfMemory>
        ensures { IfOk result (λ copy. copy ≡ self.now) }
    {
        let name = String::from_str(alloc, self.name.as_str())?;
        Ok(FileName { name })
    }
}

/// Reads a whole text as a file name; `None` where it isn't one.
pub fn read_file_name(alloc: Global, text: &[u8]) -> Result<Option<FileName>, OutOfMemory>
    ensures { IfOk result (λ name. name ≡ file_name_of_text text.now) }
{
    if !is_file_name(text) {
        return Ok(None);
    }
    let Ok(ascii) = from_utf8(text) else {
        unreachable!();
    };
    let name = String::from_str(alloc, ascii)?;
    Ok(Some(FileName { name }))
}

/// Whether a whole text is a file name.
pub fn is_file_name(text: &[u8]) -> bool
    ensures { result ≡ is_file_name text.now }
{
    match text {
        [first, ..] => {
            *first != b'-' && *first != b'#' && text.len() <= MOST_OCTETS && all_fit(text)
        }
        [] => false,
    }
}

fn all_fit(text: &[u8]) -> bool
    ensures { result ≡ list_all is_file_octet text.now }
{
    text.iter().all(|octet| is_file_octet(*octet))
}

fn is_file_octet(octet: u8) -> bool
    ensures { result ≡ is_file_octet octet }
{
    matches!(octet, b'!'..=b'~')
}

impl PartialEq for FileName {
    ghost use Rattle.std.proofs.Common.{rules};
    ghost use Rattle.std.specs.Cmp.Rules.{comparing};

    ghost eq = { λ a b. bytes_eq a b };

    ghost laws = { Prim.search (comparing, rules) };

    fn eq(&self, other: &FileName) -> bool {
        self.name.as_bytes() == other.name.as_bytes()
    }
}

impl Eq for FileName {
    ghost use Rattle.std.proofs.Common.{rules};
    ghost use Rattle.std.specs.Cmp.Rules.{comparing};

    ghost laws = { Prim.search (comparing, rules) };
}

impl Hash for FileName {
    ghost use Rattle.std.proofs.Common.{rules};
    ghost use Rattle.std.specs.Cmp.Rules.{hashing};
    ghost use Rattle.std.specs.Hash as fed;

    ghost hash_input = { λ n. fed.slice fed.u8 n };

    ghost respects_eq = { Prim.search (hashing, rules) };

    fn hash<H: Hasher>(&self, state: &mut H) {
        self.name.as_bytes().hash(state);
    }
}
