//! The making of a capture.

ghost use Rattle.std.specs.Prelude.{◌≡◌, IfOk};
ghost use Rattle.made_run.specs.Verdict.{delivered_made, denied_made};
ghost use Rattle.made_run.specs.Ends.{MakesCapture, stop_of};
ghost use Rattle.made_run.specs.inside.Node.{made_hops, IsOpen};
ghost use Rattle.made_run.specs.inside.Feed.{IsReadyFeed, IsNewFeed, HasRound, HasMade};

use crate::feed::MakeFeed;
use crate::file::{begin_file, finish_file};
use crate::made_capture::Maker;
use crate::node::{STEPS, made_flow, open_board};
use crate::source::Source;
use crate::stop::MadeStop;
use label_commands::FlowLine;
use label_flow::{Gate, RoundStop, round};
use net_io::Depot;
use shared_tables::{Publisher, Viewer};
use std::alloc::Global;
use std::sync::Wait;
use std::thread::Threads;

/// How many packets were delivered, and how many were denied.
#[derive(Clone, Copy, Debug, PartialEq, Eq)]
pub struct Verdicts {
    pub delivered: u32,
    pub denied: u32,
}

// The packets of the feed are judged, beside which no step is made.
fn judge<D: Depot + Send, G: Gate + Sync, R: Threads + Wait + Sync>(
    rt: &R,
    alloc: Global,
    gate: &G,
    publisher: &mut Publisher,
    viewers: &mut [Viewer],
    flow: &FlowLine,
    feed: &mut MakeFeed<'_, '_, D>,
) -> Result<(), MadeStop>
    requires open { IsOpen publisher.old viewers.old }
    requires hops { flow.now.hops ≡ made_hops }
    requires new { IsNewFeed D.state feed.old }
    ensures { HasRound D.state (stop_of result) feed.old feed.new }
{
    match round(rt, alloc, publisher, viewers, STEPS, flow, feed, gate) {
        Ok(_) => Ok(()),
        Err(RoundStop::Feed(stop)) => Err(stop),
        Err(RoundStop::OutOfMemory) => {
            feed.stop = Some(MadeStop::OutOfMemory);
            Err(MadeStop::OutOfMemory)
        }
    }
}

// What waits for the file is appended, and the file ended, where nothing stopped the feed.
fn finish<D: Depot>(
    feed: &mut MakeFeed<'_, '_, D>,
    judged: Result<(), MadeStop>,
) -> Result<(), MadeStop>
    requires ready { IsReadyFeed D.state feed.old }
    requires stop { feed.old.stop ≡ stop_of judged }
    ensures { (was : MakeFeed D) → HasRound D.state (stop_of judged) was feed.old
        → HasMade D.state (stop_of result) was feed.new }
{
    match judged {
        Ok(()) => finish_file(feed.depot, feed.name, &mut feed.waiting),
        Err(stop) => Err(stop),
    }
}

// The packets of the feed are made and judged.
fn make_all<D: Depot + Send, G: Gate + Sync, R: Threads + Wait + Sync>(
    rt: &R,
    alloc: Global,
    gate: &G,
    feed: &mut MakeFeed<'_, '_, D>,
) -> Result<(), MadeStop>
    requires { IsNewFeed D.state feed.old }
    ensures { HasMade D.state (stop_of result) feed.old feed.new }
{
    let Ok(flow) = made_flow(alloc) else {
        return Err(MadeStop::OutOfMemory);
    };
    let Ok((mut publisher, mut viewers)) = open_board(rt, alloc) else {
        return Err(MadeStop::OutOfMemory);
    };
    let seats = viewers.as_mut_slice();
    let judged = judge(rt, alloc, gate, &mut publisher, seats, &flow, feed);
    publisher.close(rt);
    finish(feed, judged)
}

// What was lent to a feed is as the feed left it. A proof has that of a loan that is handed to a call.
fn end_loan<D: Depot>(_depot: &mut D)
    ensures { D.state _depot.new ≡ D.state _depot.old }
{}

/// Makes the capture of so many packets from a seed under a name, in place of what it held, and has four workers judge the packets as they are
/// made. Whatever stops it, the name holds what it held or some first octets of the capture.
pub fn make_capture<D: Depot + Send, G: Gate + Sync, R: Threads + Wait + Sync>(
    rt: &R,
    alloc: Global,
    gate: &G,
    seed: u64,
    count: u32,
    name: &str,
    depot: &mut D,
) -> Result<Verdicts, MadeStop>
    ensures verdicts { IfOk result (λ verdicts. verdicts ≡ record {
      delivered = delivered_made seed count;
      denied = denied_made seed count;
    }) }
    ensures capture { MakesCapture seed count name.now (stop_of result)
        (D.state depot.old) (D.state depot.new) }
{
    let waiting = match begin_file(alloc, depot, name) {
        Ok(head) => head,
        Err(stop) => return Err(stop),
    };
    let source = Source {
        maker: Maker::new(seed),
        spare: Vec::new(alloc),
    };
    let mut feed = MakeFeed {
        depot,
        name,
        alloc,
        source,
        count,
        given: 0,
        waiting,
        delivered: 0,
        denied: 0,
        stop: None,
    };
    let made = make_all(rt, alloc, gate, &mut feed);
    let MakeFeed {
        depot,
        source: _source,
        waiting: _waiting,
        delivered,
        denied,
        ..
    } = feed;
    end_loan(depot);
    match made {
        Ok(()) => Ok(Verdicts { delivered, denied }),
        Err(stop) => Err(stop),
    }
}
