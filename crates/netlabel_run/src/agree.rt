//! `agree`: whether every two neighbouring hops of a flow give the numbers on the wire one meaning.

ghost use Rattle.std.specs.Prelude.{◌≡◌, ◌++◌, [], Some, is_none, OnOk};
ghost use Rattle.std.specs.List.{list_all};
ghost use Rattle.call_report.specs.Outside.{Outside};
ghost use Rattle.call_report.specs.CallEnds.{CallEnds};
ghost use Rattle.call_report.specs.Status.{status_number};
ghost use Rattle.netlabel_run.specs.declared.command.Command.TheVariants.{Agree};
ghost use Rattle.netlabel_run.specs.Agree.{hops_text, agree_text};
ghost use Rattle.netlabel_run.specs.Commands.{netlabel_says};

use call_report::{Compares, HopAt, Status, agree_or_disagree, answer_hops, script_of, write_hops};
use label_commands::NamedVersions;
use label_flow::{Disagree, agrees};
use mls_label::OutOfMemory;
use net_io::{Depot, Sink};
use std::alloc::Global;

/// Reads a script whole, and compares every two neighbouring hops of its flow of this number, each with the tables of its version. Nothing is
/// printed before the script is known to be right. Where no versions are named, all are that of the commands above the flow.
pub(crate) fn agree<D: Depot, S: Sink>(
    alloc: Global,
    file: &str,
    flow: u32,
    versions: &Option<NamedVersions<'_>>,
    depot: &mut D,
    out: &mut S,
) -> Status
    ensures { CallEnds netlabel_says (Some (Agree file.now flow versions.now))
        (record { folder = D.state depot.old; stream = S.state out.old })
        (record { folder = D.state depot.new; stream = S.state out.new })
        (status_number result) [] }
{
    match script_of(alloc, file, depot, out) {
        Ok(script) => answer_hops(alloc, &Agreement, &script, flow, versions, out),
        Err(status) => status,
    }
}

/// Whether two neighbouring hops agree.
#[derive(Debug, Drop)]
struct Agreement;

impl Compares for Agreement {
    type Found = Option<Disagree>;

    ghost use Rattle.netlabel_run.specs.Agree.{IsFound, agree_text};

    ghost finds = { IsFound };

    ghost text = { agree_text };

    fn compare(&self, left: &HopAt<'_>, right: &HopAt<'_>) -> Option<Disagree> {
        agrees(left.tables, right.tables, left.reading, right.reading)
    }

    fn append(&self, found: &[Option<Disagree>], lines: &mut Vec<u8>) -> Result<(), OutOfMemory> {
        append_hops(found, lines)?;
        lines.extend_from_slice(agree_or_disagree(all_agree(found)))?;
        Ok(())
    }
}

/// Appends a line for each two hops.
fn append_hops(found: &[Option<Disagree>], lines: &mut Vec<u8>) -> Result<(), OutOfMemory>
    ensures { OnOk result (lines.new.items ≡ lines.old.items ++ hops_text 1 found.now) }
{
    let mut place = 0;
    while place < found.len() {
        write_hops(place + 1, found[place], lines)?;
        place += 1;
    }
    Ok(())
}

/// Whether each two hops agree.
fn all_agree(found: &[Option<Disagree>]) -> bool
    ensures { result ≡ list_all is_none found.now }
{
    found.iter().all(|found| found.is_none())
}
