//! The one call that the program makes: whether each hop of a flow covers the next one.

ghost use Rattle.std.specs.Prelude.{◌≡◌, ◌++◌, [], Some, is_none, OnOk};
ghost use Rattle.std.specs.List.{list_all};
ghost use Rattle.label_commands.specs.command_words.Words.{texts_of};
ghost use Rattle.call_report.specs.Outside.{Outside};
ghost use Rattle.call_report.specs.CallEnds.{CallEnds};
ghost use Rattle.call_report.specs.Printing.{Printed};
ghost use Rattle.call_report.specs.Status.{status_number};
ghost use Rattle.static_law.specs.Lines.{cover_usage_line};
ghost use Rattle.static_law.specs.Covered.{interface_out, interface_in};
ghost use Rattle.static_law.specs.Cover.{cover_asked, links_text, cover_says};

use crate::lines::{cover_usage, covered_or_uncovered, write_link};
use crate::link::covers;
use crate::question::{CoverQuestion, read_question};
use crate::uncovered::Uncovered;
use call_report::{Compares, HopAt, Report, Status, answer_hops, script_of};
use domain_map::Name;
use label_commands::{Hop, NamedVersions};
use mls_label::OutOfMemory;
use net_io::{Depot, Sink};
use std::alloc::Global;

/// Reads the script that the words name whole, and tells of every two neighbouring hops of its flow whether the link between them is covered,
/// each with the tables of its version, and at the end whether all are. Where no versions are named, all are that of the commands above
/// the flow.
///
/// The words are those of the command line without the program's name. The status is 0 where the question is answered, 1 where the words are
/// no form, 2 where the script is wrong, or hasn't the flow or the versions that the words name, 3 where the script couldn't be read, 4
/// where a write failed, 6 where memory ran out and 7 where the script passes a limit. The clause says what each of them means, what is
/// printed and what is left as it was.
pub fn cover<D: Depot, S: Sink>(alloc: Global, words: &[String], depot: &mut D, out: &mut S) -> u8
    ensures { CallEnds cover_says (cover_asked (texts_of words.now))
        (record { folder = D.state depot.old; stream = S.state out.old })
        (record { folder = D.state depot.new; stream = S.state out.new }) result [] }
{
    carry_out(alloc, read_question(words), depot, out).number()
}

/// Answers the question, or prints the usage line.
fn carry_out<D: Depot, S: Sink>(
    alloc: Global,
    asked: Option<CoverQuestion<'_>>,
    depot: &mut D,
    out: &mut S,
) -> Status
    ensures { CallEnds cover_says asked.entry
        (record { folder = D.state depot.old; stream = S.state out.old })
        (record { folder = D.state depot.new; stream = S.state out.new })
        (status_number result) [] }
{
    match asked {
        Some(
            CoverQuestion {
                file,
                flow,
                versions,
            },
        ) => answer(alloc, file.as_str(), flow, &versions, depot, out),
        None => print_usage(alloc, out),
    }
}

/// Prints the forms of the command line.
fn print_usage<S: Sink>(alloc: Global, out: &mut S) -> Status
    ensures { Printed [] cover_usage_line Status.NoForm result (S.state out.old) (S.state out.new) }
{
    Report::new(alloc).end(out, cover_usage(), Status::NoForm)
}

/// Answers the question of a script's flow.
fn answer<D: Depot, S: Sink>(
    alloc: Global,
    file: &str,
    flow: u32,
    versions: &Option<NamedVersions<'_>>,
    depot: &mut D,
    out: &mut S,
) -> Status
    ensures { CallEnds cover_says
        (Some (record { file = file.now; flow = flow; versions = versions.now }))
        (record { folder = D.state depot.old; stream = S.state out.old })
        (record { folder = D.state depot.new; stream = S.state out.new })
        (status_number result) [] }
{
    match script_of(alloc, file, depot, out) {
        Ok(script) => answer_hops(alloc, &Coverage, &script, flow, versions, out),
        Err(status) => status,
    }
}

/// Whether a hop covers the next one.
#[derive(Debug, Drop)]
struct Coverage;

impl Compares for Coverage {
    type Found = Option<Uncovered>;

    ghost use Rattle.static_law.specs.Cover.{IsLinkFound, cover_text};

    ghost finds = { IsLinkFound };

    ghost text = { cover_text };

    fn compare(&self, left: &HopAt<'_>, right: &HopAt<'_>) -> Option<Uncovered> {
        covers(
            left.tables,
            interface_out(left.hop),
            right.tables,
            interface_in(right.hop),
            left.reading,
            right.reading,
        )
    }

    fn append(&self, found: &[Option<Uncovered>], lines: &mut Vec<u8>) -> Result<(), OutOfMemory> {
        append_links(found, lines)?;
        lines.extend_from_slice(covered_or_uncovered(all_covered(found)))?;
        Ok(())
    }
}

/// Appends a line for each link.
fn append_links(found: &[Option<Uncovered>], lines: &mut Vec<u8>) -> Result<(), OutOfMemory>
    ensures { OnOk result (lines.new.items ≡ lines.old.items ++ links_text 1 found.now) }
{
    let mut place = 0;
    while place < found.len() {
        write_link(place + 1, found[place], lines)?;
        place += 1;
    }
    Ok(())
}

/// Whether each link is covered.
fn all_covered(found: &[Option<Uncovered>]) -> bool
    ensures { result ≡ list_all is_none found.now }
{
    found.iter().all(|found| found.is_none())
}

/// The interface at which a hop puts packets out; one that receives has no other.
fn interface_out(hop: &Hop) -> &Name
    ensures { result.now ≡ interface_out hop.now }
{
    match hop {
        Hop::Send { interface, .. } | Hop::Receive { interface, .. } => interface,
        Hop::Forward { to, .. } => to,
    }
}

/// The interface at which a hop takes packets in; one that sends has no other.
fn interface_in(hop: &Hop) -> &Name
    ensures { result.now ≡ interface_in hop.now }
{
    match hop {
        Hop::Send { interface, .. } | Hop::Receive { interface, .. } => interface,
        Hop::Forward { from, .. } => from,
    }
}
