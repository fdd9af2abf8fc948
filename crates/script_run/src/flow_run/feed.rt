//! The feed of a flow.

ghost use Rattle.std.specs.Prelude.{◌≡◌, ◌≤◌, ◌<◌, ◌+◌, ◌^◌, ◌++◌, ◌∷◌, [], length, OnOk, OnErr, IfErr, if◌then◌else◌};
ghost use Rattle.captures.specs.Written.{IsTime};
ghost use Rattle.script_run.specs.declared.flow_run.end.FlowStop.TheVariants.{OutOfMemory as NoMemoryStop};
ghost use Rattle.script_run.specs.flow_run.Run.{is_denied as is_denied_end};
ghost use Rattle.script_run.specs.flow_run.inside.Output.{IsThere};
ghost use Rattle.script_run.specs.flow_run.inside.Judged.{judged_frame, judged_line};
ghost use Rattle.script_run.specs.flow_run.inside.Taken.{HasHanded, outlets, stop_in};

use crate::flow_run::end::{FlowPlace, FlowStop};
use crate::flow_run::judged::Judged;
use crate::flow_run::lines::print_judged;
use crate::flow_run::output::{add_frame, is_denied};
use crate::flow_run::source::{Source, fetch_batch, read_ahead};
use call_report::{FlowSeen, Report, WalkLines};
use label_flow::{Feed, PacketIn, Walked};
use net_io::{Depot, IoFault, Sink};
use std::alloc::Global;

/// Reads the packets of a flow, and gives what became of them to the report and the output.
#[derive(Drop)]
pub struct RunFeed<'d, 'o, 'r, 'f, D, S> {
    pub depot: &'d mut D,
    pub out: &'o mut S,
    pub report: &'r mut Report,
    pub alloc: Global,
    pub place: FlowPlace<'f>,
    pub source: Source,
    /// The packets that were read ahead, and behind them places of a batch before.
    pub next: Vec<PacketIn>,
    /// What waits for the output.
    pub octets: Vec<u8>,
    pub seen: FlowSeen,
    pub lines: WalkLines,
    pub passed: u64,
    pub denied: u64,
    pub stop: Option<FlowStop>,
}

// The versions of a packet are kept.
fn keep_versions(seen: &mut FlowSeen, walked: &Walked) -> Result<(), FlowStop>
    requires { length seen.old < 1048576 }
    ensures ok { OnOk result (seen.new ≡ seen.old ++ walked.now.versions ∷ []) }
    ensures err { OnErr result (seen.new ≡ seen.old) }
    ensures stop { IfErr result (λ stop. stop ≡ NoMemoryStop) }
{
    match seen.push(walked.versions.as_slice()) {
        Ok(()) => Ok(()),
        Err(_) => Err(FlowStop::OutOfMemory),
    }
}

// A packet counts as passed or as denied.
fn count(passed: &mut u64, denied: &mut u64, walked: &Walked)
    requires { passed.old + denied.old < 2 ^ 63 }
    ensures passed { passed.new ≡ passed.old + (if is_denied_end walked.now.end then 0 else 1) }
    ensures denied { denied.new ≡ denied.old + (if is_denied_end walked.now.end then 1 else 0) }
{
    if is_denied(walked) {
        *denied += 1;
    } else {
        *passed += 1;
    }
}

// The line of a packet is printed, and its frame added to the output where it wasn't denied.
fn hand_on<D: Depot, S: Sink>(
    depot: &mut D,
    out: &mut S,
    report: &mut Report,
    octets: &mut Vec<u8>,
    lines: &mut WalkLines,
    place: &FlowPlace<'_>,
    judged: &Judged<'_>,
) -> Result<(), FlowStop>
    requires there { IsThere place.now.flow.now.output (D.state depot.old) }
    requires short { length judged.now.packet.now ≤ 262144 }
    requires time { IsTime judged.now.format judged.now.head }
    ensures { HasHanded (stop_in result)
        (judged_line place.now judged.now) place.now.flow.now.output (judged_frame judged.now)
        (outlets (D.state depot.old) (S.state out.old) report.old.waiting.items octets.old.items)
        (outlets (D.state depot.new) (S.state out.new) report.new.waiting.items octets.new.items) }
{
    match print_judged(report, out, lines, place, judged) {
        Ok(()) => add_frame(depot, &place.flow.output, octets, judged),
        Err(IoFault::Failed) => Err(FlowStop::Print),
        Err(IoFault::OutOfMemory) => Err(FlowStop::OutOfMemory),
    }
}

impl<'d, 'o, 'r, 'f, D: Depot, S: Sink> Feed for RunFeed<'d, 'o, 'r, 'f, D, S> {
    type Stop = FlowStop;

    ghost use Rattle.std.specs.Prelude.{length};
    ghost use Rattle.script_run.specs.flow_run.inside.Source.{is_end};
    ghost use Rattle.script_run.specs.flow_run.inside.Feed.{left_of, due_of, IsReadyFeed, HasTakenSince};

    ghost left = { λ f. left_of D.state f };

    ghost ended = { λ f. is_end f.source.behind };

    ghost due = { λ f. due_of f };

    ghost stop = { λ f. f.stop };

    ghost hops = { λ f. length f.place.flow.now.hops };

    ghost ready = { λ f. IsReadyFeed D.state S.state f };

    ghost took = { λ was f pairs. HasTakenSince D.state S.state was f pairs };

    fn fetch(&mut self, batch: &mut Vec<PacketIn>) -> Result<bool, FlowStop> {
        match self.stop {
            Some(stop) => return Err(stop),
            None => {}
        }
        match fetch_batch(
            self.alloc,
            self.depot,
            &mut self.source,
            &mut self.next,
            batch,
        ) {
            Ok(more) => Ok(more),
            Err(stop) => {
                self.stop = Some(stop);
                Err(stop)
            }
        }
    }

    fn read_ahead(&mut self) {
        // One worker has nobody who judges meanwhile.
        if self.source.workers < 2 {
            return;
        }
        if self.stop.is_some() {
            return;
        }
        read_ahead(self.alloc, self.depot, &mut self.source, &mut self.next);
    }

    fn accept(&mut self, walked: &Walked, packet: &[u8]) -> Result<(), FlowStop> {
        match self.stop {
            Some(stop) => return Err(stop),
            None => {}
        }
        match keep_versions(&mut self.seen, walked) {
            Ok(()) => {}
            Err(stop) => {
                self.stop = Some(stop);
                return Err(stop);
            }
        }
        count(&mut self.passed, &mut self.denied, walked);
        let judged = Judged {
            number: self.seen.len() as u64,
            format: self.source.reader.format(),
            head: self.source.fetched[self.source.at],
            walked,
            packet,
        };
        self.source.at += 1;
        let octets = &mut self.octets;
        match hand_on(
            self.depot,
            self.out,
            self.report,
            octets,
            &mut self.lines,
            &self.place,
            &judged,
        ) {
            Ok(()) => Ok(()),
            Err(stop) => {
                self.stop = Some(stop);
                Err(stop)
            }
        }
    }
}
