//! One flow, from its line to the next one's.

ghost use Rattle.std.specs.Prelude.{◌≡◌, ◌≢◌, ◌⊎◌, None, Some, true, OnOk, IsOk};
ghost use Rattle.captures.specs.Reader.{file_name_of};
ghost use Rattle.script_run.specs.flow_run.Place.{StandsAt, tables_at};
ghost use Rattle.script_run.specs.flow_run.Ends.{HasEnded, FlowEndsAt};
ghost use Rattle.script_run.specs.declared.flow_run.end.FlowStop.TheVariants.{OutOfMemory as NoMemoryStop};
ghost use Rattle.script_run.specs.declared.flow_run.source.Behind.TheVariants as the_behind;
ghost use Rattle.script_run.specs.flow_run.inside.Board.{IsOpenFor};
ghost use Rattle.script_run.specs.flow_run.inside.Output.{IsThere, AreSent};
ghost use Rattle.script_run.specs.flow_run.inside.Source.{IsFed, is_end};
ghost use Rattle.script_run.specs.flow_run.inside.Taken.{stop_in};
ghost use Rattle.script_run.specs.flow_run.inside.Flown.{EndsBehind, IsFresh, LeavesWaiting, WaitsFor, IsBehind, stop_of, end_at};
ghost use Rattle.script_run.specs.flow_run.inside.Feed.{IsSameFlow, IsNew, IsPrepared, GoesOnFrom, HasRound, HasTakenToEnd, HasFlownSince, EndsSince, last_moment};

use crate::flow_run::board::open_board;
use crate::flow_run::end::{FlowEnd, FlowPlace, FlowStop};
use crate::flow_run::feed::RunFeed;
use crate::flow_run::output::{append_rest, create_output};
use crate::flow_run::runner::Runner;
use crate::flow_run::source::{Behind, Source, begin_source};
use call_report::{FlowSeen, Report, WalkLines, write_flow, write_flow_end};
use captures::{FileFault, ReadStop};
use label_flow::{Gate, RoundStop, round};
use net_io::{Depot, Sink};
use node_tables::Network;
use shared_tables::{Publisher, Viewer};
use std::sync::Wait;
use std::thread::Threads;

/// What the `end` line of a flow says: its number, how many of its packets were judged, and how many of these passed and were denied.
#[derive(Clone, Copy)]
pub struct Totals {
    pub number: u64,
    pub packets: u64,
    pub passed: u64,
    pub denied: u64,
}

// Makes the steps beside the packets of the feed.
fn drive<D: Depot + Send, S: Sink + Send, G: Gate + Sync, R: Threads + Wait + Sync>(
    runner: &Runner<'_, '_, R, G>,
    publisher: &mut Publisher,
    viewers: &mut [Viewer],
    feed: &mut RunFeed<'_, '_, '_, '_, D, S>,
) -> Result<(), FlowStop>
    requires stands { StandsAt feed.old.place }
    requires board { IsOpenFor feed.old.place publisher.old viewers.old }
    requires going { GoesOnFrom D.state S.state feed.old }
    ensures round { HasRound D.state S.state feed.old feed.new viewers.old viewers.new }
    ensures stop { feed.new.stop ≡ stop_in result }
    ensures fed { IsFed (D.state feed.new.depot.now) feed.new.source }
    ensures there { IsThere feed.new.place.flow.now.output (D.state feed.new.depot.now) }
    ensures ended { OnOk result (is_end feed.new.source.behind ≡ true) }
{
    let Runner { rt, alloc, gate } = runner;
    let FlowPlace { upto, flow, .. } = feed.place;
    match round(*rt, *alloc, publisher, viewers, upto, flow, feed, *gate) {
        Ok(()) => Ok(()),
        Err(RoundStop::Feed(stop)) => Err(stop),
        Err(RoundStop::OutOfMemory) => {
            feed.stop = Some(FlowStop::OutOfMemory);
            Err(FlowStop::OutOfMemory)
        }
    }
}

// The last line of a flow that goes on.
fn go_on(report: &mut Report, totals: Totals) -> FlowEnd
    ensures stop { (stop_of result ≡ None) ⊎ (stop_of result ≡ Some NoMemoryStop) }
    ensures waits { LeavesWaiting totals result report.old.waiting.items report.new.waiting.items }
    ensures behind { IsBehind result (Some the_behind.Whole) }
{
    let Totals {
        number,
        packets,
        passed,
        denied,
    } = totals;
    match write_flow_end(number, packets, passed, denied, &mut report.waiting) {
        Ok(()) => FlowEnd::GoesOn,
        Err(_) => FlowEnd::Stopped(FlowStop::OutOfMemory),
    }
}

// How a flow ends whose packets were all walked and written.
fn conclude(report: &mut Report, totals: Totals, behind: Option<Behind>) -> FlowEnd
    requires { is_end behind ≡ true }
    ensures stop { (stop_of result ≡ None) ⊎ (stop_of result ≡ Some NoMemoryStop) }
    ensures waits { LeavesWaiting totals result report.old.waiting.items report.new.waiting.items }
    ensures behind { IsBehind result behind }
{
    match behind {
        Some(Behind::Whole) => go_on(report, totals),
        Some(Behind::Broken(fault)) => FlowEnd::Broken(fault),
        Some(Behind::TooMany) => FlowEnd::TooMany,
        Some(Behind::Failed | Behind::NoMemory) | None => unreachable!(),
    }
}

// What waits for the output is appended where nothing stopped the flow, and the flow ends.
fn finish<D: Depot, S: Sink>(
    feed: &mut RunFeed<'_, '_, '_, '_, D, S>,
    driven: Result<(), FlowStop>,
) -> FlowEnd
    requires there { IsThere feed.old.place.flow.now.output (D.state feed.old.depot.now) }
    requires ended { OnOk driven (is_end feed.old.source.behind ≡ true) }
    requires stop { feed.old.stop ≡ stop_in driven }
    ensures same { IsSameFlow feed.old feed.new }
    ensures taken { HasTakenToEnd D.state S.state feed.old feed.new result }
    ensures waits { WaitsFor feed.old.place.number result
        (last_moment D.state S.state feed.old feed.new result) feed.new.report.now.waiting.items }
    ensures sent { HasEnded result
        → AreSent feed.old.place.flow.now.output feed.new.octets.items }
    ensures behind { IsBehind result feed.new.source.behind }
    ensures done { HasEnded result → IsOk driven }
    ensures fed { IsFed (D.state feed.old.depot.now) feed.old.source
        → feed.old.place.flow.now.output ≢ Some (file_name_of feed.old.source.reader)
        → IsFed (D.state feed.new.depot.now) feed.new.source }
{
    match driven {
        Ok(()) => match append_rest(feed.depot, &feed.place.flow.output, &mut feed.octets) {
            Ok(()) => {
                let totals = Totals {
                    number: u64::from(feed.place.number),
                    packets: feed.seen.len() as u64,
                    passed: feed.passed,
                    denied: feed.denied,
                };
                conclude(feed.report, totals, feed.source.behind)
            }
            Err(stop) => FlowEnd::Stopped(stop),
        },
        Err(stop) => FlowEnd::Stopped(stop),
    }
}

// The packets of a capture are walked over a board.
fn run_on<D: Depot + Send, S: Sink + Send, G: Gate + Sync, R: Threads + Wait + Sync>(
    runner: &Runner<'_, '_, R, G>,
    board: (Publisher, Vec<Viewer>),
    feed: &mut RunFeed<'_, '_, '_, '_, D, S>,
) -> FlowEnd
    requires stands { StandsAt feed.old.place }
    requires board { IsOpenFor feed.old.place board.0 board.1.items }
    requires prepared { IsPrepared D.state feed.old }
    ensures same { IsSameFlow feed.old feed.new }
    ensures flown { HasFlownSince D.state S.state feed.old feed.new result }
{
    let (mut publisher, mut viewers) = board;
    let seats = viewers.as_mut_slice();
    let driven = drive(runner, &mut publisher, seats, feed);
    publisher.close(runner.rt);
    finish(feed, driven)
}

// The packets of a capture whose beginning was read, where the output is made.
fn run_made<D: Depot + Send, S: Sink + Send, G: Gate + Sync, R: Threads + Wait + Sync>(
    runner: &Runner<'_, '_, R, G>,
    network: &Network,
    feed: &mut RunFeed<'_, '_, '_, '_, D, S>,
) -> FlowEnd
    requires stands { StandsAt feed.old.place }
    requires network { network.now ≡ tables_at feed.old.place }
    requires prepared { IsPrepared D.state feed.old }
    ensures same { IsSameFlow feed.old feed.new }
    ensures flown { HasFlownSince D.state S.state feed.old feed.new result }
{
    let place = feed.place;
    match open_board(runner, &place, network) {
        Ok(board) => run_on(runner, board, feed),
        Err(_) => FlowEnd::Stopped(FlowStop::OutOfMemory),
    }
}

// A flow whose input's beginning was read.
fn run_read<D: Depot + Send, S: Sink + Send, G: Gate + Sync, R: Threads + Wait + Sync>(
    runner: &Runner<'_, '_, R, G>,
    network: &Network,
    feed: &mut RunFeed<'_, '_, '_, '_, D, S>,
) -> FlowEnd
    requires stands { StandsAt feed.old.place }
    requires network { network.now ≡ tables_at feed.old.place }
    requires new { IsNew D.state feed.old }
    ensures same { (feed.new.depot.ghost_name ≡ feed.old.depot.ghost_name)
        × (feed.new.out.ghost_name ≡ feed.old.out.ghost_name)
        × (feed.new.report.ghost_name ≡ feed.old.report.ghost_name) }
    ensures ends { EndsSince D.state S.state feed.old feed.new result }
{
    let format = feed.source.reader.format();
    match create_output(feed.alloc, feed.depot, &feed.place.flow.output, format) {
        Ok(octets) => {
            feed.octets = octets;
            run_made(runner, network, feed)
        }
        Err(stop) => FlowEnd::Stopped(stop),
    }
}

// The flow of a source whose beginning was read, by a feed over what is lent to the flow.
fn run_source<D: Depot + Send, S: Sink + Send, G: Gate + Sync, R: Threads + Wait + Sync>(
    runner: &Runner<'_, '_, R, G>,
    place: &FlowPlace<'_>,
    network: &Network,
    source: Source,
    report: &mut Report,
    depot: &mut D,
    out: &mut S,
) -> (FlowSeen, FlowEnd)
    requires stands { StandsAt place.now }
    requires network { network.now ≡ tables_at place.now }
    requires fresh { IsFresh place.now.flow.now.input place.now.most source }
    requires fed { IsFed (D.state depot.old) source }
    ensures { EndsBehind place.now source
        (D.state depot.old) (S.state out.old) report.old.waiting.items
        (record { folder = D.state depot.new; stream = S.state out.new })
        report.new.waiting.items result.0 result.1 }
{
    let alloc = runner.alloc;
    let mut feed = RunFeed {
        depot,
        out,
        report,
        alloc,
        place: *place,
        source,
        next: Vec::new(alloc),
        octets: Vec::new(alloc),
        seen: FlowSeen::new(alloc),
        lines: WalkLines::new(alloc),
        passed: 0,
        denied: 0,
        stop: None,
    };
    let end = run_read(runner, network, &mut feed);
    let RunFeed {
        depot,
        out,
        report,
        source: _source,
        next: _next,
        octets: _octets,
        seen,
        lines: _lines,
        ..
    } = feed;
    end_loans(depot, out, report);
    (seen, end)
}

// What was lent to a feed is as the feed left it. A proof has that of loans that are handed to a call.
fn end_loans<D: Depot, S: Sink>(_depot: &mut D, _out: &mut S, _report: &mut Report)
    ensures depot { D.state _depot.new ≡ D.state _depot.old }
    ensures out { S.state _out.new ≡ S.state _out.old }
    ensures report { _report.new.waiting.items ≡ _report.old.waiting.items }
{}

// How a flow ends whose input can't be begun.
fn end_at(stop: ReadStop) -> FlowEnd
    ensures { result ≡ end_at stop }
{
    match stop {
        ReadStop::Capture(fault) => FlowEnd::Broken(FileFault::Pcap(fault)),
        ReadStop::Ng(fault) => FlowEnd::Broken(FileFault::Pcapng(fault)),
        ReadStop::ReadFault => FlowEnd::Stopped(FlowStop::Read),
        ReadStop::OutOfMemory => FlowEnd::Stopped(FlowStop::OutOfMemory),
    }
}

/// Carries out a flow of a script, up to the next one. A line is printed for the flow and for each of its packets, and the packets
/// that aren't denied are written to its output, if it has one: a capture of link type 101 in the input's format. The steps up to
/// the next flow are made beside the packets, which so many workers walk, on copies of the network: it stays as it is, and who prints the
/// replies carries them out once more.
///
/// Each version under which a packet was judged is given back. Where a read or an append fails, or memory runs out, all packets in front
/// of it stand in the lines; of the output some first octets may be there.
pub fn run_flow<D: Depot + Send, S: Sink + Send, G: Gate + Sync, R: Threads + Wait + Sync>(
    runner: &Runner<'_, '_, R, G>,
    place: &FlowPlace<'_>,
    network: &Network,
    report: &mut Report,
    depot: &mut D,
    out: &mut S,
) -> (FlowSeen, FlowEnd)
    requires stands { StandsAt place.now }
    requires network { network.now ≡ tables_at place.now }
    ensures { FlowEndsAt place.now
        (record { folder = D.state depot.old; stream = S.state out.old })
        (record { folder = D.state depot.new; stream = S.state out.new })
        report.old.waiting.items report.new.waiting.items result.0 result.1 }
{
    let alloc = runner.alloc;
    let none = FlowSeen::new(alloc);
    let input = &place.flow.input;
    let Ok(()) = write_flow(u64::from(place.number), input, &mut report.waiting) else {
        return (none, FlowEnd::Stopped(FlowStop::OutOfMemory));
    };
    let hops = place.flow.hops.hops().len();
    match begin_source(alloc, depot, input, place.most, place.workers, hops) {
        Ok(source) => run_source(runner, place, network, source, report, depot, out),
        Err(stop) => (none, end_at(stop)),
    }
}
