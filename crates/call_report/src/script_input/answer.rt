//! The answer to a question on the neighbouring hops of a flow.

ghost use Rattle.std.specs.Prelude.{◌≡◌, ◌++◌, ℕ, List, [], OnOk};
ghost use Rattle.label_commands.specs.Sound.{IsSoundScript};
ghost use Rattle.call_report.specs.Printing.{Printed};
ghost use Rattle.call_report.specs.script_input.Answer.{HopsAnswer, IsAnswered};

use crate::script_input::compare::{Compares, compare_hops};
use crate::script_input::flow::{are_versions_of, flow_numbered, versions_for};
use crate::{Report, Status, bad_versions, no_flow};
use label_commands::{NamedVersions, Script};
use mls_label::OutOfMemory;
use net_io::Sink;
use std::alloc::Global;

/// Prints what every two neighbouring hops come to of the flow of this number, each with the tables of its version, or why none are
/// compared. Where no versions are named, all are that of the commands above the flow.
pub fn answer_hops<C: Compares, S: Sink>(
    alloc: Global,
    by: &C,
    script: &Script,
    number: u32,
    named: &Option<NamedVersions<'_>>,
    out: &mut S,
) -> Status
    requires { (own : List ℕ) × IsSoundScript own script.now }
    ensures { IsAnswered (HopsAnswer C.finds C.text number named.now script.now)
        (S.state out.old) (S.state out.new) result }
{
    let Some(flow) = flow_numbered(script, number) else {
        return Report::new(alloc).end(out, no_flow(), Status::WrongScript);
    };
    let versions = match versions_for(alloc, flow, named) {
        Ok(versions) => versions,
        Err(OutOfMemory) => return Status::OutOfMemory,
    };
    if !are_versions_of(script, number, flow, &versions) {
        return Report::new(alloc).end(out, bad_versions(), Status::WrongScript);
    }
    match compare_hops(alloc, by, script, flow.hops.hops(), &versions) {
        Ok(found) => print_found(alloc, by, &found, out),
        Err(OutOfMemory) => Status::OutOfMemory,
    }
}

/// Prints what the hops come to.
fn print_found<C: Compares, S: Sink>(
    alloc: Global,
    by: &C,
    found: &[C::Found],
    out: &mut S,
) -> Status
    ensures { Printed (C.text found.now) [] Status.Done result
        (S.state out.old) (S.state out.new) }
{
    let mut report = Report::new(alloc);
    match by.append(found, &mut report.waiting) {
        Ok(()) => report.end(out, b"", Status::Done),
        Err(OutOfMemory) => Status::OutOfMemory,
    }
}
