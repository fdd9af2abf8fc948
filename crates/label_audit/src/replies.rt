//! Replies to the steps of a script.

ghost use Rattle.std.specs.Prelude.{◌≡◌, ◌+◌, ◌-◌, ◌<◌, ◌≤◌, ◌^◌, ℕ, List, All, IsTrue, IfOk, OnOk, length};
ghost use Rattle.script_lines.specs.declared.command.Step.{Step as StepValue};
ghost use Rattle.node_tables.specs.Steps.{tables_after};
ghost use Rattle.call_report.specs.Lines.Reply.{reply_line_at, replies_text};
ghost use Rattle.call_report.specs.report_file.File.{KeepsPart};
ghost use Rattle.label_audit.specs.inside.Reading.{HasRead, StandsIn, IsExpected, file_of};

use crate::place::{Place, expect};
use call_report::{ReportFile, write_reply};
use label_commands::Script;
use mls_label::OutOfMemory;
use net_io::{Depot, IoFault};
use node_tables::Network;
use std::alloc::Global;

/// The tables of all nodes behind so many steps, and the reply to the last one as it is printed.
#[derive(Drop)]
pub struct Replies {
    pub network: Network,
    pub done: u32,
    pub line: Vec<u8>,
}

impl Replies {
    /// In front of the first step.
    pub(crate) fn none(alloc: Global, script: &Script) -> Result<Replies, OutOfMemory>
        ensures { IfOk result (λ replies. (replies.done ≡ 0) × (replies.network
            ≡ tables_after (length script.now.nodes) script.now.steps 0)) }
    {
        let network = Network::fresh(alloc, script.nodes.len())?;
        Ok(Replies {
            network,
            done: 0,
            line: Vec::new(alloc),
        })
    }
}

/// Carries out the next step and writes its reply.
fn write_next(script: &Script, replies: &mut Replies) -> Result<(), OutOfMemory>
    requires nodes { All (λ (step : StepValue). step.node < length script.now.nodes)
        script.now.steps }
    requires within { replies.old.done < length script.now.steps }
    requires few { length script.now.steps < 2 ^ 32 }
    requires tables { replies.old.network
        ≡ tables_after (length script.now.nodes) script.now.steps replies.old.done }
    ensures line { OnOk result (replies.new.line.items
        ≡ reply_line_at script.now.nodes script.now.steps replies.old.done) }
    ensures done { OnOk result (replies.new.done ≡ replies.old.done + 1) }
    ensures tables { OnOk result (replies.new.network
        ≡ tables_after (length script.now.nodes) script.now.steps (replies.old.done + 1)) }
{
    let names = script.nodes.as_slice();
    let step = &script.steps.as_slice()[replies.done as usize];
    let reply = replies.network.apply(step)?;
    replies.line.clear();
    replies.done += 1;
    let name = &names[step.node];
    write_reply(u64::from(replies.done), name, &reply, &mut replies.line)
}

/// Whether the replies to the steps up to `upto` stand at the place, which goes behind them then.
pub(crate) fn expect_replies<D: Depot>(
    depot: &mut D,
    report: &mut ReportFile,
    place: &mut Place,
    script: &Script,
    upto: u32,
    replies: &mut Replies,
) -> Result<bool, IoFault>
    requires nodes { All (λ (step : StepValue). step.node < length script.now.nodes)
        script.now.steps }
    requires within { (replies.old.done ≤ upto) × (upto ≤ length script.now.steps) }
    requires few { length script.now.steps < 2 ^ 32 }
    requires tables { replies.old.network
        ≡ tables_after (length script.now.nodes) script.now.steps replies.old.done }
    requires keeps { KeepsPart (D.state depot.old) report.old }
    requires stands { IsTrue (D.state depot.old).tells
        → StandsIn (file_of (D.state depot.old) report.old) place.old }
    ensures read { (names : List (List ℕ)) → HasRead names result report.old report.new
        (D.state depot.old) (D.state depot.new) }
    ensures expected { IfOk result (λ met. IsTrue (D.state depot.old).tells
        → IsExpected (file_of (D.state depot.old) report.old)
        (replies_text script.now.nodes script.now.steps replies.old.done (upto - replies.old.done))
        place.old place.new met) }
    ensures done { IfOk result (λ met. IsTrue met → replies.new.done ≡ upto) }
    ensures tables { IfOk result (λ met. IsTrue met → replies.new.network
        ≡ tables_after (length script.now.nodes) script.now.steps upto) }
{
    while replies.done < upto {
        write_next(script, replies)?;
        if !expect(depot, report, place, &replies.line)? {
            return Ok(false);
        }
    }
    Ok(true)
}
