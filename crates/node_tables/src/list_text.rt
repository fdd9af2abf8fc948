//! The lines of a listing.

ghost use Rattle.std.specs.Prelude.{◌≡◌, ◌<◌, ◌≤◌, [], ◌∷◌, ◌++◌, length, take, slice_get, slice_index, Some, OnOk, OnErr};
ghost use Rattle.script_lines.specs.Command.{command_text};
ghost use Rattle.node_tables.specs.inside.Pieces.{pieces, AreEnds};

use mls_label::OutOfMemory;
use script_lines::{Command, write_step};
use std::alloc::Global;
use std::marker::Model;

/// Lines without their ends. Contracts see them as a list of texts.
#[derive(Debug, Drop)]
pub struct ListText {
    text: Vec<u8>,
    /// Where each line ends in the text.
    ends: Vec<usize>,
}

impl Model for ListText {
    ghost use Rattle.std.specs.Prelude.{List, ℕ, length};
    ghost use Rattle.node_tables.specs.inside.Pieces.{pieces, AreEnds};

    ghost Value = { List (List ℕ) };

    ghost view = { λ l. pieces 0 l.ends.items l.text.items };

    ghost invariant = { λ l. AreEnds 0 l.ends.items (length l.text.items) };
}

impl ListText {
    pub(crate) fn empty(alloc: Global) -> ListText
        ensures { result ≡ [] }
    {
        ListText {
            text: Vec::new(alloc),
            ends: Vec::new(alloc),
        }
    }

    /// How many lines there are.
    pub fn count(&self) -> usize
        ensures { result ≡ length self.now }
    {
        self.ends.len()
    }

    /// A line, counted from 0.
    pub fn line(&self, i: usize) -> &[u8]
        requires { i < length self.now }
        ensures { slice_get self.now i ≡ Some result.now }
    {
        piece(&self.text, &self.ends, i)
    }

    /// Adds a line. After an error nothing has changed.
    pub(crate) fn push(&mut self, line: &[u8]) -> Result<(), OutOfMemory>
        ensures ok { OnOk result (self.new ≡ self.old ++ line.now ∷ []) }
        ensures err { OnErr result (self.new ≡ self.old) }
    {
        let before = self.text.len();
        self.text.extend_from_slice(line)?;
        end_line(&mut self.text, &mut self.ends, before)
    }

    /// Adds the written form of a command. After an error nothing has changed.
    pub(crate) fn push_command(&mut self, command: Command) -> Result<(), OutOfMemory>
        ensures ok { OnOk result (self.new ≡ self.old ++ command_text command ∷ []) }
        ensures err { OnErr result (self.new ≡ self.old) }
    {
        self.push_form(&command)
    }

    fn push_form(&mut self, command: &Command) -> Result<(), OutOfMemory>
        ensures ok { OnOk result (self.new ≡ self.old ++ command_text command.now ∷ []) }
        ensures err { OnErr result (self.new ≡ self.old) }
    {
        let before = self.text.len();
        write_step(command, &mut self.text)?;
        end_line(&mut self.text, &mut self.ends, before)
    }
}

// Ends the line that was begun at `before`, or takes it back.
fn end_line(text: &mut Vec<u8>, ends: &mut Vec<usize>, before: usize) -> Result<(), OutOfMemory>
    requires { before ≤ length text.old.items }
    ensures ok { OnOk result
        ((text.new.items ≡ text.old.items)
        × (ends.new.items ≡ ends.old.items ++ length text.old.items ∷ [])) }
    ensures err { OnErr result
        ((text.new.items ≡ take before text.old.items) × (ends.new.items ≡ ends.old.items)) }
{
    let end = text.len();
    if ends.push(end).is_err() {
        text.truncate(before);
        return Err(OutOfMemory);
    }
    Ok(())
}

// Where a line begins.
fn start_of(ends: &[usize], i: usize) -> usize
    requires { i ≤ length ends.now }
    ensures { result ≡ slice_index (0 ∷ ends.now) i }
{
    if i == 0 {
        return 0;
    }
    ends[i - 1]
}

fn piece<'a>(text: &'a [u8], ends: &[usize], i: usize) -> &'a [u8]
    requires ends { AreEnds 0 ends.now (length text.now) }
    requires within { i < length ends.now }
    ensures { slice_get (pieces 0 ends.now text.now) i ≡ Some result.now }
{
    let from = start_of(ends, i);
    let end = ends[i];
    &text[from..end]
}
