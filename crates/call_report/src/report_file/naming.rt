//! The versions that a line names at its end.
ghost use Rattle.std.specs.Prelude.{◌≡◌, ◌+◌, ◌<◌, ◌≤◌, ◌^◌, ℕ, List, IsTrue, length, drop, IfOk, OnOk, Some, None, if◌then◌else◌};
ghost use Rattle.net_io.specs.Depot.{octets_of, OnlyReads};
ghost use Rattle.net_io.specs.file_window.Window.{IsFrom};
ghost use Rattle.call_report.specs.report_file.Versions.{EndsWithVersions, AreVersions};
ghost use Rattle.call_report.specs.report_file.inside.Word.{versions_of};

use crate::report_file::window::move_to;
use crate::report_file::word::{Word, read_on};
use net_io::{Depot, IoFault, OutOfMemory, Window};

/// So many octets are read at once, where the file has them: more than most lines have.
const PIECE: usize = 4096;

/// Reads the versions that the line which stands at the octet `at` names at its end, and tells whether it names any. The window stands at
/// `place`, wherever that is.
pub(crate) fn name_versions<D: Depot>(
    depot: &mut D,
    name: &str,
    at: u64,
    place: &mut u64,
    window: &mut Window,
    versions: &mut Vec<u32>,
) -> Result<bool, IoFault>
    requires ahead { IsTrue (D.state depot.old).tells
        → IsFrom (octets_of ((D.state depot.old).held name.now)) place.old window.old }
    requires place { place.old + length window.old < 2 ^ 64 }
    ensures named { IfOk result (λ named. IsTrue (D.state depot.old).tells → IsTrue named
        → EndsWithVersions (drop at (octets_of ((D.state depot.old).held name.now)))
        versions.new.items) }
    ensures each { IfOk result (λ named. IsTrue (D.state depot.old).tells
        → (others : List ℕ) → AreVersions others
        → EndsWithVersions (drop at (octets_of ((D.state depot.old).held name.now))) others
        → IsTrue named × (versions.new.items ≡ others)) }
    ensures few { IfOk result (λ named. IsTrue named → length versions.new.items ≤ 16) }
    ensures ahead { IsTrue (D.state depot.old).tells
        → IsFrom (octets_of ((D.state depot.old).held name.now)) place.new window.new }
    ensures place { place.new + length window.new < 2 ^ 64 }
    ensures frame { OnlyReads IoFault.Failed result name.now (D.state depot.old)
        (D.state depot.new) }
{
    versions.clear();
    let mut word = Word::Other;
    let mut next = at;
    loop {
        move_to(next, place, window);
        window.reach(depot, name, next, PIECE)?;
        let ahead = window.ahead();
        let count = read_on(&mut word, versions, ahead)?;
        if count < ahead.len() {
            return Ok(end_word(word, versions)?);
        }
        if count == 0 {
            return Ok(false);
        }
        next += count as u64;
    }
}

/// Whether a word is a list of versions at its end, with the last of them among the others.
fn end_word(word: Word, versions: &mut Vec<u32>) -> Result<bool, OutOfMemory>
    ensures named { IfOk result (λ named. versions_of
        (record { word = word; versions = versions.old.items })
        ≡ (if named then Some versions.new.items else None)) }
    ensures few { OnOk result
        (length versions.old.items ≤ 15 → length versions.new.items ≤ 16) }
{
    match word {
        Word::Dash => Ok(true),
        Word::Number { value } => {
            versions.push(value)?;
            Ok(true)
        }
        Word::Other | Word::Begun => Ok(false),
    }
}
