//! The table of what was added up.

ghost use Rattle.std.specs.Prelude.{◌≡◌, ◌++◌, codes, map, Some, OnOk};
ghost use Rattle.std.specs.List.{flat_map};
ghost use Rattle.netlabel_report.specs.inside.Tallies.{tally_at};
ghost use Rattle.netlabel_report.specs.report_telling.Summary.{count_text, placed_reply, refused_text, ended_text, reports_text, early_text, commands_text, packets_text, others_text, sum_of, tally_text, elsewhere_text, summary_text};

use crate::report_telling::counts::{DenialCount, DenialPlace, Progress, Tallies};
use call_report::parts_at;
use indexmap::IndexMap;
use mls_label::{OutOfMemory, write_decimal};

/// Appends that a command was refused, by the text of its line behind `command `, with the line in the script at which the command stands.
#[tactic(auto, unfolding(crate::specs::report_telling::Summary::refused_text))]
pub fn write_refused(
    at: Option<u64>,
    report: u64,
    reply: &[u8],
    out: &mut Vec<u8>,
) -> Result<(), OutOfMemory>
    ensures { OnOk result (out.new.items ≡ out.old.items ++ refused_text at report reply.now) }
{
    append_count(b"refused ", report, out)?;
    out.push(b'.')?;
    append_reply(at, reply, out)?;
    out.push(b'\n')?;
    Ok(())
}

fn append_reply(at: Option<u64>, reply: &[u8], out: &mut Vec<u8>) -> Result<(), OutOfMemory>
    ensures { OnOk result (out.new.items ≡ out.old.items ++ placed_reply at reply.now) }
{
    match at {
        Some(line) => append_placed(line, reply, out),
        None => {
            out.extend_from_slice(reply)?;
            Ok(())
        }
    }
}

/// Appends the text of a reply, with the line in the script behind the command's number.
fn append_placed(line: u64, reply: &[u8], out: &mut Vec<u8>) -> Result<(), OutOfMemory>
    ensures { OnOk result (out.new.items ≡ out.old.items ++ placed_reply (Some line) reply.now) }
{
    let (number, answer) = parts_at(reply, b' ');
    out.extend_from_slice(number)?;
    append_count(b" line ", line, out)?;
    out.push(b' ')?;
    out.extend_from_slice(answer)?;
    Ok(())
}

/// Appends that a report has no good end: how it ends instead.
#[tactic(auto, unfolding(crate::specs::report_telling::Summary::ended_text))]
pub fn write_ended(report: u64, how: &[u8], out: &mut Vec<u8>) -> Result<(), OutOfMemory>
    ensures { OnOk result (out.new.items ≡ out.old.items ++ ended_text report how.now) }
{
    append_count(b"ended ", report, out)?;
    out.push(b' ')?;
    out.extend_from_slice(how)?;
    out.push(b'\n')?;
    Ok(())
}

/// Appends what was added up.
#[tactic(auto, unfolding(crate::specs::report_telling::Summary::summary_text))]
pub fn write_summary(
    progress: &Progress,
    tallies: &Tallies,
    out: &mut Vec<u8>,
) -> Result<(), OutOfMemory>
    ensures { OnOk result (out.new.items
        ≡ out.old.items ++ summary_text progress.now tallies.now) }
{
    append_reports(progress, out)?;
    append_commands(progress, out)?;
    append_packets(progress, out)?;
    append_counts(tallies.counts(), out)?;
    append_elsewhere(progress.elsewhere, out)
}

fn append_reports(progress: &Progress, out: &mut Vec<u8>) -> Result<(), OutOfMemory>
    ensures { OnOk result (out.new.items ≡ out.old.items ++ reports_text progress.now) }
{
    append_count(b"reports ", progress.reports, out)?;
    append_early(progress, out)
}

fn append_early(progress: &Progress, out: &mut Vec<u8>) -> Result<(), OutOfMemory>
    ensures { OnOk result (out.new.items ≡ out.old.items ++ early_text progress.now) }
{
    append_count(b" unfinished ", progress.unfinished, out)?;
    out.push(b'\n')?;
    Ok(())
}

fn append_commands(progress: &Progress, out: &mut Vec<u8>) -> Result<(), OutOfMemory>
    ensures { OnOk result (out.new.items ≡ out.old.items ++ commands_text progress.now) }
{
    append_count(b"commands ", progress.commands, out)?;
    append_count(b" refused ", progress.refused, out)?;
    out.push(b'\n')?;
    Ok(())
}

fn append_packets(progress: &Progress, out: &mut Vec<u8>) -> Result<(), OutOfMemory>
    ensures { OnOk result (out.new.items ≡ out.old.items ++ packets_text progress.now) }
{
    let passed = sum_of(progress.delivered, progress.sent);
    append_count(b"packets ", sum_of(passed, progress.denied), out)?;
    append_count(b" delivered ", progress.delivered, out)?;
    append_others(progress, out)
}

fn append_others(progress: &Progress, out: &mut Vec<u8>) -> Result<(), OutOfMemory>
    ensures { OnOk result (out.new.items ≡ out.old.items ++ others_text progress.now) }
{
    append_count(b" sent ", progress.sent, out)?;
    append_count(b" denied ", progress.denied, out)?;
    out.push(b'\n')?;
    Ok(())
}

/// A sum, at most the greatest number.
fn sum_of(a: u64, b: u64) -> u64
    ensures { result ≡ sum_of a b }
{
    if a <= u64::MAX - b { a + b } else { u64::MAX }
}

fn append_counts(
    counts: &IndexMap<DenialPlace, DenialCount>,
    out: &mut Vec<u8>,
) -> Result<(), OutOfMemory>
    ensures { OnOk result (out.new.items
        ≡ out.old.items ++ flat_map tally_text (map tally_at counts.now.entries)) }
{
    for (place, denied) in counts.iter() {
        append_tally(place, denied, out)?;
    }
    Ok(())
}

#[tactic(auto, unfolding(crate::specs::report_telling::Summary::tally_text))]
fn append_tally(
    place: &DenialPlace,
    denied: &DenialCount,
    out: &mut Vec<u8>,
) -> Result<(), OutOfMemory>
    ensures { OnOk result (out.new.items
        ≡ out.old.items ++ tally_text (tally_at (place.now, denied.now))) }
{
    append_count(b"denied ", place.reason, out)?;
    out.push(b' ')?;
    out.extend_from_slice(denied.name.text())?;
    append_count(b" hop ", place.hop, out)?;
    append_node(place, denied, out)
}

fn append_node(
    place: &DenialPlace,
    denied: &DenialCount,
    out: &mut Vec<u8>,
) -> Result<(), OutOfMemory>
    ensures { OnOk result (out.new.items ≡ out.old.items ++ (codes " node " ++ place.now.node
        ++ count_text (codes " packets ") denied.now.count ++ codes "\n")) }
{
    out.extend_from_slice(b" node ")?;
    out.extend_from_slice(place.node.text())?;
    append_count(b" packets ", denied.count, out)?;
    out.push(b'\n')?;
    Ok(())
}

/// Appends how many were denied beside the tallies, where some were.
fn append_elsewhere(count: u64, out: &mut Vec<u8>) -> Result<(), OutOfMemory>
    ensures { OnOk result (out.new.items ≡ out.old.items ++ elsewhere_text count) }
{
    if count == 0 {
        return Ok(());
    }
    append_count(b"denied elsewhere packets ", count, out)?;
    out.push(b'\n')?;
    Ok(())
}

fn append_count(text: &[u8], count: u64, out: &mut Vec<u8>) -> Result<(), OutOfMemory>
    ensures { OnOk result (out.new.items ≡ out.old.items ++ count_text text.now count) }
{
    out.extend_from_slice(text)?;
    write_decimal(count, out)?;
    Ok(())
}
