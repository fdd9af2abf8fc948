//! Printed lines.

ghost use Rattle.std.specs.Prelude.{◌≡◌, ◌++◌, OnOk};
ghost use Rattle.ripso_border_run.specs.Lines.{counts_text, crossed_end_line, name_twice_line, no_doi_line, border_usage_line};
ghost use Rattle.ripso_border_run.specs.inside.Course.{shown_of};

use call_report::write_verdict;
use mls_label::{Label, OutOfMemory, write_decimal};
use packet_label::Denial;

/// How many packets there were, and how many of them were written and denied.
#[derive(Clone, Copy, Debug)]
pub(crate) struct Counts {
    pub packets: u64,
    pub passed: u64,
    pub denied: u64,
}

/// Appends what became of a packet; some of it where memory runs out. The label that is lent isn't read.
#[tactic(auto, unfolding(call_report::specs::Lines::Packet::shown_line))]
pub(crate) fn write_made(
    number: u64,
    verdict: &Result<(), Denial>,
    label: &Label,
    line: &mut Vec<u8>,
) -> Result<(), OutOfMemory>
    ensures { OnOk result (line.new.items ≡ line.old.items ++ shown_of number verdict.now) }
{
    line.extend_from_slice(b"packet ")?;
    write_decimal(number, line)?;
    line.extend_from_slice(b" ")?;
    match verdict {
        Ok(()) => {
            line.extend_from_slice(b"written\n")?;
            Ok(())
        }
        Err(_) => write_verdict(verdict, label, line),
    }
}

/// Appends the last line; some of it where memory runs out.
#[tactic(auto, unfolding(crate::specs::Lines::crossed_end_line))]
pub(crate) fn write_end(counts: Counts, line: &mut Vec<u8>) -> Result<(), OutOfMemory>
    ensures { OnOk result (line.new.items ≡ line.old.items
        ++ crossed_end_line counts.packets counts.passed counts.denied) }
{
    append_packets(counts.packets, line)?;
    line.extend_from_slice(b" passed ")?;
    write_decimal(counts.passed, line)?;
    line.extend_from_slice(b" denied ")?;
    write_decimal(counts.denied, line)?;
    line.push(b'\n')?;
    Ok(())
}

/// Appends its beginning.
#[tactic(auto, unfolding(crate::specs::Lines::counts_text))]
fn append_packets(packets: u64, line: &mut Vec<u8>) -> Result<(), OutOfMemory>
    ensures { OnOk result
        (line.new.items ≡ line.old.items ++ counts_text packets) }
{
    line.extend_from_slice(b"end packets ")?;
    write_decimal(packets, line)?;
    Ok(())
}

/// The output is the script or the input.
#[tactic(auto, unfolding(crate::specs::Lines::name_twice_line))]
pub(crate) fn name_twice() -> &'static [u8]
    ensures { result.now ≡ name_twice_line }
{
    b"script line 0 octet 0 NameTwice\n"
}

/// The script's first node doesn't define the DOI.
#[tactic(auto, unfolding(crate::specs::Lines::no_doi_line))]
pub(crate) fn no_doi() -> &'static [u8]
    ensures { result.now ≡ no_doi_line }
{
    b"script line 0 octet 0 NoDoi\n"
}

/// The forms of the command line.
#[tactic(auto, unfolding(crate::specs::Lines::border_usage_line))]
pub(crate) fn border_usage() -> &'static [u8]
    ensures { result.now ≡ border_usage_line }
{
    b"usage: ripso_border in|out <script> <doi> <input> <output>\n"
}
