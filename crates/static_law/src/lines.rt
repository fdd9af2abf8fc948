//! Lines of coverage: whether a hop covers the next one, and whether each does.

ghost use Rattle.std.specs.Prelude.{◌≡◌, ◌+◌, ◌<◌, ◌^◌, ◌++◌, codes, OnOk};
ghost use Rattle.std.specs.Fmt.{decimal};
ghost use Rattle.static_law.specs.Lines.{told_line, link_line, coverage_line, cover_usage_line};

use crate::uncovered::Uncovered;
use call_report::write_hops;
use mls_label::{OutOfMemory, write_decimal};

/// Appends the line that tells what the hop of this number, counted from 1, and the next one come to: that the link is covered, or the
/// first reason why not. Some of it stands there where memory runs out.
pub(crate) fn write_link(
    left: usize,
    found: Option<Uncovered>,
    line: &mut Vec<u8>,
) -> Result<(), OutOfMemory>
    requires { left + 1 < 2 ^ 64 }
    ensures { OnOk result (line.new.items ≡ line.old.items ++ link_line left found) }
{
    match found {
        None => write_told(left, b"covered", line),
        Some(Uncovered::Differ(difference)) => write_hops(left, Some(difference), line),
        Some(Uncovered::NoRange) => write_told(left, b"uncovered NoRange", line),
        Some(Uncovered::Entry { index }) => write_entry(left, index, line),
    }
}

/// Appends the line of a fixed text.
#[tactic(auto, unfolding(crate::specs::Lines::told_line))]
fn write_told(left: usize, told: &[u8], line: &mut Vec<u8>) -> Result<(), OutOfMemory>
    requires { left + 1 < 2 ^ 64 }
    ensures { OnOk result (line.new.items ≡ line.old.items ++ told_line left told.now) }
{
    append_hops(left, line)?;
    line.extend_from_slice(told)?;
    line.push(b'\n')?;
    Ok(())
}

/// Appends the line of an entry by its index.
#[tactic(auto, unfolding(crate::specs::Lines::told_line))]
fn write_entry(left: usize, index: usize, line: &mut Vec<u8>) -> Result<(), OutOfMemory>
    requires { left + 1 < 2 ^ 64 }
    ensures { OnOk result (line.new.items ≡ line.old.items
        ++ told_line left (codes "uncovered entry " ++ decimal index)) }
{
    append_hops(left, line)?;
    line.extend_from_slice(b"uncovered entry ")?;
    write_decimal(index as u64, line)?;
    line.push(b'\n')?;
    Ok(())
}

/// Appends which two hops a line is of.
fn append_hops(left: usize, line: &mut Vec<u8>) -> Result<(), OutOfMemory>
    requires { left + 1 < 2 ^ 64 }
    ensures { OnOk result (line.new.items ≡ line.old.items
        ++ (codes "hop " ++ decimal left ++ codes " " ++ decimal (left + 1) ++ codes " ")) }
{
    line.extend_from_slice(b"hop ")?;
    write_decimal(left as u64, line)?;
    line.extend_from_slice(b" ")?;
    write_decimal(left as u64 + 1, line)?;
    line.extend_from_slice(b" ")?;
    Ok(())
}

/// Whether each link is covered.
#[tactic(auto, unfolding(crate::specs::Lines::coverage_line))]
pub(crate) fn covered_or_uncovered(covered: bool) -> &'static [u8]
    ensures { result.now ≡ coverage_line covered }
{
    if covered {
        b"covered\n"
    } else {
        b"uncovered\n"
    }
}

/// The forms of the command line.
#[tactic(auto, unfolding(crate::specs::Lines::cover_usage_line))]
pub(crate) fn cover_usage() -> &'static [u8]
    ensures { result.now ≡ cover_usage_line }
{
    b"usage: netlabel_cover <script> <flow> [<versions>]\n"
}
