//! The line of a capture that was made.

ghost use Rattle.std.specs.Prelude.{◌≡◌, ◌++◌, OnOk, OnErr};
ghost use Rattle.call_report.specs.Lines.Made.{made_line};
ghost use Rattle.call_report.specs.inside.Extends.{Extends};

use crate::whole::all_or_nothing;
use mls_label::{OutOfMemory, write_decimal};

/// Appends the line that tells how many packets were made, and how many of them were delivered and denied. After an error `line` is as
/// it was.
pub fn write_made(
    count: u64,
    delivered: u64,
    denied: u64,
    line: &mut Vec<u8>,
) -> Result<(), OutOfMemory>
    ensures ok { OnOk result
        (line.new.items ≡ line.old.items ++ made_line count delivered denied) }
    ensures err { OnErr result (line.new.items ≡ line.old.items) }
{
    let before = line.len();
    let written = append_made(count, delivered, denied, line);
    all_or_nothing(written, before, line)
}

/// Appends it, or a part of it where memory runs out.
#[tactic(auto, unfolding(crate::specs::Lines::Made::made_line))]
fn append_made(
    count: u64,
    delivered: u64,
    denied: u64,
    line: &mut Vec<u8>,
) -> Result<(), OutOfMemory>
    ensures ok { OnOk result
        (line.new.items ≡ line.old.items ++ made_line count delivered denied) }
    ensures err { OnErr result (Extends line.old.items line.new.items) }
{
    line.extend_from_slice(b"made ")?;
    write_decimal(count, line)?;
    line.extend_from_slice(b" delivered ")?;
    write_decimal(delivered, line)?;
    line.extend_from_slice(b" denied ")?;
    write_decimal(denied, line)?;
    line.push(b'\n')?;
    Ok(())
}
