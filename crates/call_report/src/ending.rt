//! The end of a packet's line, which stays while the versions do.

ghost use Rattle.std.specs.Prelude.{◌≡◌, OnOk};
ghost use Rattle.call_report.specs.inside.Kept.{versions_ending};

use crate::flow::append_versions;
use mls_label::OutOfMemory;
use std::alloc::Global;
use std::marker::Model;

/// What stands in a packet's line behind what became of it, with the versions there.
#[derive(Drop)]
pub(crate) struct Ending {
    text: Vec<u8>,
    versions: Vec<u32>,
    /// The text is that of these versions.
    is_written: bool,
}

impl Model for Ending {
    ghost use Rattle.std.specs.Prelude.{◌≡◌, List, ℕ, IsTrue};
    ghost use Rattle.call_report.specs.inside.Kept.{versions_ending};

    ghost Value = { List ℕ };

    ghost view = { λ e. e.text.items };

    ghost invariant = { λ e. IsTrue e.is_written → e.text.items ≡ versions_ending e.versions.items };
}

impl Ending {
    pub fn new(alloc: Global) -> Ending {
        Ending {
            text: Vec::new(alloc),
            versions: Vec::new(alloc),
            is_written: false,
        }
    }

    pub fn text(&self) -> &[u8]
        ensures { result.now ≡ self.now }
    {
        &self.text
    }

    /// Goes on to a packet that was judged under these versions.
    pub fn turn_to(&mut self, versions: &[u32]) -> Result<(), OutOfMemory>
        ensures { OnOk result (self.new ≡ versions_ending versions.now) }
    {
        if self.is_written && self.versions.as_slice() == versions {
            return Ok(());
        }
        self.is_written = false;
        self.versions.clear();
        self.versions.extend_from_slice(versions)?;
        write_ending(versions, &mut self.text)?;
        self.is_written = true;
        Ok(())
    }
}

/// Writes an end in place of what was there.
fn write_ending(versions: &[u32], text: &mut Vec<u8>) -> Result<(), OutOfMemory>
    ensures { OnOk result (text.new.items ≡ versions_ending versions.now) }
{
    text.clear();
    text.extend_from_slice(b" versions ")?;
    append_versions(versions, text)?;
    text.push(b'\n')?;
    Ok(())
}
