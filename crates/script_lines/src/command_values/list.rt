//! Lists with commas between their entries.

ghost use Rattle.std.specs.Prelude.{◌≡◌, ℕ, List, Option, ◌++◌, All, IfOk, IfSome, OnOk, OnErr, option_map};
ghost use Rattle.script_lines.specs.command_values.List.{AreEntries, list_of_text, list_text};
ghost use Rattle.script_lines.specs.command_values.inside.Extends.{Extends};

use crate::command_values::parts::split_once;
use mls_label::OutOfMemory;
use std::alloc::Global;
use std::marker::Model;

/// An entry of a list, and how it is spelled.
pub trait ListEntry: Copy {
    ghost of_text: { List ℕ → Option Self };

    ghost text_of: { Self → List ℕ };

    ghost is_entry: { Self → Type 0 };

    /// Reads a whole text as an entry.
    fn read(text: &[u8]) -> Option<Self>
        ensures value { result ≡ of_text text.now }
        ensures entry { IfSome result is_entry };

    /// Appends the entry's text. After an error `out` is as it was.
    fn write(&self, out: &mut Vec<u8>) -> Result<(), OutOfMemory>
        ensures ok { OnOk result (out.new.items ≡ out.old.items ++ text_of self.now) }
        ensures err { OnErr result (out.new.items ≡ out.old.items) };
}

/// A list that isn't empty. Contracts see its entries.
#[derive(Drop)]
pub struct CommaList<E: ListEntry> {
    entries: Vec<E>,
}

impl<E: ListEntry> Model for CommaList<E> {
    ghost use Rattle.std.specs.Prelude.{List};

    ghost Value = { List E };

    ghost use Rattle.script_lines.specs.command_values.List.{AreEntries};

    ghost view = { λ l. l.entries.items };

    ghost invariant = { λ l. AreEntries E.is_entry l.entries.items };
}

impl<E: ListEntry> CommaList<E> {
    /// The list of these entries.
    pub fn of(alloc: Global, entries: &[E]) -> Result<CommaList<E>, OutOfMemory>
        requires { AreEntries E.is_entry entries.now }
        ensures { IfOk result (λ list. list ≡ entries.now) }
    {
        let entries = Vec::from_slice(alloc, entries)?;
        Ok(CommaList { entries })
    }

    /// The entries in order.
    pub fn as_slice(&self) -> &[E]
        ensures value { result.now ≡ self.now }
        ensures entries { AreEntries E.is_entry self.now }
    {
        self.entries.as_slice()
    }

    /// A copy.
    pub fn copy(&self) -> Result<CommaList<E>, OutOfMemory>
        ensures { IfOk result (λ copy. copy ≡ self.now) }
    {
        let entries = Vec::from_slice(*self.entries.allocator(), self.entries.as_slice())?;
        Ok(CommaList { entries })
    }

    /// Reads a whole text as entries with commas between; `None` where one of them is none.
    pub fn read(alloc: Global, text: &[u8]) -> Result<Option<CommaList<E>>, OutOfMemory>
        ensures { IfOk result (λ read. read ≡ list_of_text E.of_text text.now) }
    {
        match read_entries(alloc, text)? {
            Some(entries) => Ok(Some(CommaList { entries })),
            None => Ok(None),
        }
    }

    /// Appends the entries with commas between. After an error `out` is as it was.
    pub fn write(&self, out: &mut Vec<u8>) -> Result<(), OutOfMemory>
        ensures ok { OnOk result (out.new.items ≡ out.old.items ++ list_text E.text_of self.now) }
        ensures err { OnErr result (out.new.items ≡ out.old.items) }
    {
        let before = out.len();
        let written = append_entries(&self.entries, out);
        if written.is_err() {
            out.truncate(before);
        }
        written
    }
}

/// The entries that a text spells.
fn read_entries<E: ListEntry>(alloc: Global, text: &[u8]) -> Result<Option<Vec<E>>, OutOfMemory>
    ensures value { IfOk result
        (λ read. option_map (λ v. v.items) read ≡ list_of_text E.of_text text.now) }
    ensures entries { IfOk result (λ read. IfSome read (λ v. AreEntries E.is_entry v.items)) }
{
    let mut entries = Vec::new(alloc);
    let mut rest = text;
    while let Some((part, behind)) = split_once(rest, b',') {
        let Some(entry) = E::read(part) else {
            return Ok(None);
        };
        entries.push(entry)?;
        rest = behind;
    }
    let Some(entry) = E::read(rest) else {
        return Ok(None);
    };
    entries.push(entry)?;
    Ok(Some(entries))
}

/// Appends entries with commas between, or some of them where memory runs out.
fn append_entries<E: ListEntry>(entries: &[E], out: &mut Vec<u8>) -> Result<(), OutOfMemory>
    ensures ok { OnOk result (out.new.items ≡ out.old.items ++ list_text E.text_of entries.now) }
    ensures err { OnErr result (Extends out.old.items out.new.items) }
{
    let [first, others @ ..] = entries else {
        return Ok(());
    };
    first.write(out)?;
    for entry in others {
        out.push(b',')?;
        entry.write(out)?;
    }
    Ok(())
}
