//! The lines of packets.

ghost use Rattle.call_report.specs.Printing.{HandsOn};
ghost use Rattle.script_run.specs.flow_run.inside.Judged.{judged_line};

use crate::flow_run::end::FlowPlace;
use crate::flow_run::judged::Judged;
use call_report::{Report, WalkLines};
use mls_label::OutOfMemory;
use net_io::{IoFault, Sink};

/// Adds the line of a packet, and hands on what waits where that is a piece.
pub(crate) fn print_judged<S: Sink>(
    report: &mut Report,
    out: &mut S,
    lines: &mut WalkLines,
    place: &FlowPlace<'_>,
    judged: &Judged<'_>,
) -> Result<(), IoFault>
    ensures { HandsOn (judged_line place.now judged.now)
        report.old.waiting.items report.new.waiting.items
        result (S.state out.old) (S.state out.new) }
{
    let flow = u64::from(place.number);
    let hops = place.flow.hops.hops();
    match lines.write(
        flow,
        judged.number,
        place.names,
        hops,
        judged.walked,
        &mut report.waiting,
    ) {
        Ok(()) => report.pass(out),
        Err(OutOfMemory) => Err(IoFault::OutOfMemory),
    }
}
