//! Lists of pairs of numbers.

ghost use Rattle.std.specs.Prelude.{◌≡◌, ◌≤◌, ◌<◌, ◌^◌, ◌++◌, IfSome, OnOk, OnErr};
ghost use Rattle.script_lines.specs.command_values.Pairs.{pair_of_text, pair_text, IsPairWithin};
ghost use Rattle.script_lines.specs.command_values.inside.Extends.{Extends};

use crate::command_values::list::{CommaList, ListEntry};
use crate::command_values::number::read_number;
use crate::command_values::parts::around;
use mls_label::{OutOfMemory, write_decimal};

/// Pairs of levels, the local number first.
pub type LevelPairs = CommaList<(u8, u8)>;

/// Pairs of categories from 0 to 65534, the local number first.
pub type CategoryPairs = CommaList<(u16, u16)>;

/// Local levels, each with what it means.
pub type ReadingLevels = CommaList<(u8, u32)>;

/// Local categories from 0 to 65534, each with what it means.
pub type ReadingCategories = CommaList<(u16, u32)>;

/// The greatest level.
const HIGHEST_LEVEL: u32 = 255;

/// The greatest category.
const HIGHEST_CATEGORY: u32 = mls_label::HIGHEST_CATEGORY as u32;

impl ListEntry for (u8, u8) {
    ghost use Rattle.script_lines.specs.command_values.Pairs.{pair_of_text, pair_text, IsPairWithin};

    ghost of_text = { pair_of_text 255 255 };

    ghost text_of = { pair_text };

    ghost is_entry = { IsPairWithin 255 255 };

    fn read(text: &[u8]) -> Option<(u8, u8)> {
        let (local, remote) = read_pair(text, HIGHEST_LEVEL, HIGHEST_LEVEL)?;
        Some((local as u8, remote as u8))
    }

    fn write(&self, out: &mut Vec<u8>) -> Result<(), OutOfMemory> {
        write_pair(u32::from(self.0), u32::from(self.1), out)
    }
}

impl ListEntry for (u16, u16) {
    ghost use Rattle.script_lines.specs.command_values.Pairs.{pair_of_text, pair_text, IsPairWithin};

    ghost of_text = { pair_of_text 65534 65534 };

    ghost text_of = { pair_text };

    ghost is_entry = { IsPairWithin 65534 65534 };

    fn read(text: &[u8]) -> Option<(u16, u16)> {
        let (local, remote) = read_pair(text, HIGHEST_CATEGORY, HIGHEST_CATEGORY)?;
        Some((local as u16, remote as u16))
    }

    fn write(&self, out: &mut Vec<u8>) -> Result<(), OutOfMemory> {
        write_pair(u32::from(self.0), u32::from(self.1), out)
    }
}

impl ListEntry for (u8, u32) {
    ghost use Rattle.script_lines.specs.command_values.Pairs.{pair_of_text, pair_text, IsPairWithin};

    ghost of_text = { pair_of_text 255 4294967295 };

    ghost text_of = { pair_text };

    ghost is_entry = { IsPairWithin 255 4294967295 };

    fn read(text: &[u8]) -> Option<(u8, u32)> {
        let (local, meaning) = read_pair(text, HIGHEST_LEVEL, u32::MAX)?;
        Some((local as u8, meaning))
    }

    fn write(&self, out: &mut Vec<u8>) -> Result<(), OutOfMemory> {
        write_pair(u32::from(self.0), self.1, out)
    }
}

impl ListEntry for (u16, u32) {
    ghost use Rattle.script_lines.specs.command_values.Pairs.{pair_of_text, pair_text, IsPairWithin};

    ghost of_text = { pair_of_text 65534 4294967295 };

    ghost text_of = { pair_text };

    ghost is_entry = { IsPairWithin 65534 4294967295 };

    fn read(text: &[u8]) -> Option<(u16, u32)> {
        let (local, meaning) = read_pair(text, HIGHEST_CATEGORY, u32::MAX)?;
        Some((local as u16, meaning))
    }

    fn write(&self, out: &mut Vec<u8>) -> Result<(), OutOfMemory> {
        write_pair(u32::from(self.0), self.1, out)
    }
}

/// Reads a whole text as two numbers, each up to its bound, with an equals sign between.
fn read_pair(text: &[u8], first: u32, second: u32) -> Option<(u32, u32)>
    ensures value { result ≡ pair_of_text first second text.now }
    ensures within { IfSome result (IsPairWithin first second) }
{
    let (front, back) = around(text, b'=');
    let local = read_number(front, first)?;
    let remote = read_number(back, second)?;
    Some((local, remote))
}

/// Appends two numbers with an equals sign between. After an error `out` is as it was.
fn write_pair(local: u32, remote: u32, out: &mut Vec<u8>) -> Result<(), OutOfMemory>
    ensures ok { OnOk result (out.new.items ≡ out.old.items ++ pair_text (local, remote)) }
    ensures err { OnErr result (out.new.items ≡ out.old.items) }
{
    let before = out.len();
    let written = append_pair(local, remote, out);
    if written.is_err() {
        out.truncate(before);
    }
    written
}

/// Appends a pair, or a part of it where memory runs out.
fn append_pair(local: u32, remote: u32, out: &mut Vec<u8>) -> Result<(), OutOfMemory>
    ensures ok { OnOk result (out.new.items ≡ out.old.items ++ pair_text (local, remote)) }
    ensures err { OnErr result (Extends out.old.items out.new.items) }
{
    write_decimal(u64::from(local), out)?;
    out.push(b'=')?;
    write_decimal(u64::from(remote), out)?;
    Ok(())
}
