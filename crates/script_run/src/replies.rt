//! Replies to steps, handed on one by one.

ghost use Rattle.std.specs.Prelude.{◌≡◌, ◌+◌, ◌-◌, ◌<◌, ◌≤◌, All, Some, length, OnOk};
ghost use Rattle.script_lines.specs.declared.command.Step.{Step as StepValue};
ghost use Rattle.node_tables.specs.Steps.{reply_at, tables_after};
ghost use Rattle.call_report.specs.Lines.Reply.{reply_line_at, reply_text, replies_text};
ghost use Rattle.call_report.specs.Printing.{HandsOn};

use call_report::{OutOfMemory, Report, write_reply};
use label_commands::{Name, Step};
use net_io::{IoFault, Sink};
use node_tables::{Network, Reply};

/// Carries out the steps behind the first `from` up to the first `upto`, one after the other, and hands on what each answers. A reply is
/// dropped before the next one is made.
pub fn answer_steps<S: Sink>(
    names: &[Name],
    steps: &[Step],
    from: usize,
    upto: usize,
    network: &mut Network,
    report: &mut Report,
    out: &mut S,
) -> Result<(), IoFault>
    requires nodes { All (λ (step : StepValue). step.node < length names.now) steps.now }
    requires between { (from ≤ upto) × (upto ≤ length steps.now) }
    requires tables { network.old ≡ tables_after (length names.now) steps.now from }
    ensures replies { HandsOn (replies_text names.now steps.now from (upto - from))
        report.old.waiting.items report.new.waiting.items
        result (S.state out.old) (S.state out.new) }
    ensures tables { OnOk result (network.new ≡ tables_after (length names.now) steps.now upto) }
{
    let mut place = from;
    while place < upto {
        answer_step(names, steps, place, network, report, out)?;
        place += 1;
    }
    Ok(())
}

/// Carries out the step at this place and hands on its reply.
fn answer_step<S: Sink>(
    names: &[Name],
    steps: &[Step],
    place: usize,
    network: &mut Network,
    report: &mut Report,
    out: &mut S,
) -> Result<(), IoFault>
    requires nodes { All (λ (step : StepValue). step.node < length names.now) steps.now }
    requires within { place < length steps.now }
    requires tables { network.old ≡ tables_after (length names.now) steps.now place }
    ensures replied { HandsOn (reply_line_at names.now steps.now place)
        report.old.waiting.items report.new.waiting.items
        result (S.state out.old) (S.state out.new) }
    ensures applied { OnOk result (network.new
        ≡ tables_after (length names.now) steps.now (place + 1)) }
{
    let Ok(reply) = network.apply(&steps[place]) else {
        return Err(IoFault::OutOfMemory);
    };
    hand_on_at(names, steps, place, &reply, report, out)
}

/// Hands on the reply that was given to the step at this place.
fn hand_on_at<S: Sink>(
    names: &[Name],
    steps: &[Step],
    place: usize,
    reply: &Reply,
    report: &mut Report,
    out: &mut S,
) -> Result<(), IoFault>
    requires nodes { All (λ (step : StepValue). step.node < length names.now) steps.now }
    requires within { place < length steps.now }
    requires given { reply_at (length names.now) steps.now place ≡ Some reply.now }
    ensures { HandsOn (reply_line_at names.now steps.now place)
        report.old.waiting.items report.new.waiting.items
        result (S.state out.old) (S.state out.new) }
{
    let step = &steps[place];
    let name = &names[step.node];
    hand_on(place as u64 + 1, name, reply, report, out)
}

/// Adds a reply to what waits, and hands this on where it is a piece.
fn hand_on<S: Sink>(
    number: u64,
    name: &Name,
    reply: &Reply,
    report: &mut Report,
    out: &mut S,
) -> Result<(), IoFault>
    ensures { HandsOn (reply_text number name.now reply.now)
        report.old.waiting.items report.new.waiting.items
        result (S.state out.old) (S.state out.new) }
{
    match write_reply(number, name, reply, &mut report.waiting) {
        Ok(()) => report.pass(out),
        Err(OutOfMemory) => Err(IoFault::OutOfMemory),
    }
}
