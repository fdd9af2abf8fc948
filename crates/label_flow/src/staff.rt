//! A thread for each worker but the first, for as long as a round takes.

ghost use Rattle.std.specs.Prelude.{◌≡◌, ◌<◌, length, All, OnOk, IfOk, true};
ghost use denote.Param.Send.{IsSync, IsSend};
ghost use Rattle.label_flow.specs.Feed.{IsOver, AreWhole};
ghost use Rattle.label_flow.specs.Round.{IsLater, AreLater};
ghost use Rattle.label_flow.specs.inside.Work.{HasViewers, IsReadyFor, LeavesFeed, TakesRound};
ghost use Rattle.label_flow.specs.inside.Crew.{IsServant, MayLead, HasLed, HaveLearnt, AreOfOne};

use crate::agreed::{Agreed, Seen, Shift};
use crate::bench::Bench;
use crate::crew::{Crew, serve};
use crate::feed::Feed;
use crate::packet_walk::{Gate, ShownWalks};
use crate::rounds::{RoundStop, each_batch};
use crate::trays::Trays;
use label_commands::FlowLine;
use mls_label::OutOfMemory;
use shared_tables::Viewer;
use std::alloc::Global;
use std::marker::Brand;
use std::sync::Wait;
use std::thread::{Threads, join_mut};

/// All batches of a feed, with a worker for each viewer. Each worker but the first has a thread of its own.
pub fn all_batches<Q: Feed, G: Gate + Sync, R: Threads + Wait + Sync>(
    rt: &R,
    alloc: Global,
    flow: &FlowLine,
    gate: &G,
    feed: &mut Q,
    viewers: &mut [Viewer],
) -> Result<(), RoundStop<Q::Stop>>
    requires viewers { HasViewers flow.now.hops viewers.old }
    requires one { AreOfOne viewers.old }
    requires feed { IsReadyFor flow.now.hops 0
        (Q.hops feed.old) (Q.due feed.old) (Q.ready feed.old) }
    ensures later { AreLater viewers.old viewers.new }
    ensures feed { LeavesFeed result (Q.hops feed.old) (Q.hops feed.new) (Q.due feed.new) 0
        (Q.stop feed.old) (Q.stop feed.new) (Q.ready feed.new) }
    ensures ok { OnOk result (IsOver (Q.left feed.new) × (Q.ended feed.new ≡ true)) }
    ensures took { TakesRound Q.took feed.old feed.new flow.now.hops 0
        (Q.left feed.old) (λ packets. OnOk result (AreWhole (Q.left feed.old) packets))
        viewers.old viewers.new }
{
    with_crew::<Brand, Q, G, R>(rt, alloc, flow, gate, viewers, feed)
}

// The trays and benches, and then the crew.
fn with_crew<A: Agreed + Send + Sync, Q: Feed, G: Gate + Sync, R: Threads + Wait + Sync>(
    rt: &R,
    alloc: Global,
    flow: &FlowLine,
    gate: &G,
    viewers: &mut [Viewer],
    feed: &mut Q,
) -> Result<(), RoundStop<Q::Stop>>
    requires servants { All (IsServant A.board A.plan A.hops flow.now.hops) viewers.old }
    requires left { Q.left feed.old ≡ A.left }
    requires viewers { HasViewers flow.now.hops viewers.old }
    requires feed { IsReadyFor flow.now.hops 0
        (Q.hops feed.old) (Q.due feed.old) (Q.ready feed.old) }
    ensures { HasLed Q.took Q.left Q.ended Q.due Q.stop Q.hops Q.ready flow.now.hops
        result feed.old feed.new viewers.old viewers.new }
{
    let Ok(trays) = Trays::<A>::new(alloc, viewers.len()) else {
        return Err(RoundStop::OutOfMemory);
    };
    let Ok(mut crew) = crew_of::<A>(alloc, viewers) else {
        return Err(RoundStop::OutOfMemory);
    };
    let shift = Shift {
        rt,
        alloc,
        flow,
        gate,
        trays: &trays,
    };
    let led = staff(&shift, viewers, feed, &mut crew);
    learn_all(viewers, crew.seens.as_slice());
    led
}

// An empty bench for each viewer, and what it has seen.
fn crew_of<A: Agreed>(alloc: Global, viewers: &[Viewer]) -> Result<Crew<A>, OutOfMemory>
    requires { All (λ v. (v.board ≡ A.board) × (v.plan ≡ A.plan)) viewers.now }
    ensures { IfOk result (λ crew. (crew.seens.items ≡ viewers.now)
        × (length crew.benches.items ≡ length viewers.now)) }
{
    let mut benches = Vec::new(alloc);
    let mut seens = Vec::new(alloc);
    for viewer in viewers {
        benches.push(Bench::new(alloc)).map_err(|_| OutOfMemory)?;
        seens.push(Seen::of(viewer)).map_err(|_| OutOfMemory)?;
    }
    Ok(Crew {
        benches,
        seens,
        room: None,
        shown: ShownWalks::new(),
    })
}

// Each viewer learns of what was judged in its name.
fn learn_all<A: Agreed>(viewers: &mut [Viewer], seens: &[Seen<A>])
    requires same { length seens.now ≡ length viewers.old }
    requires board { All (λ v. v.board ≡ A.board) viewers.old }
    ensures { HaveLearnt viewers.old seens.now viewers.new }
{
    let mut at = 0;
    while at < viewers.len() {
        seens[at].teach(&mut viewers[at]);
        at += 1;
    }
}

// The workers, one for each viewer, beside each other. The first is the one who leads, in this thread.
#[cycle(staffs)]
fn staff<A: Agreed + Send + Sync, Q: Feed, G: Gate + Sync, R: Threads + Wait + Sync>(
    shift: &Shift<'_, '_, '_, '_, A, R, G>,
    viewers: &mut [Viewer],
    feed: &mut Q,
    crew: &mut Crew<A>,
) -> Result<(), RoundStop<Q::Stop>>
    requires some { 0 < length viewers.old }
    requires servants { All
        (IsServant A.board A.plan A.hops shift.now.flow.now.hops) viewers.old }
    requires lead { MayLead A.hops shift.now.flow.now.hops A.left (Q.left feed.old)
        crew.old.seens.items (length crew.old.benches.items) shift.now.trays.now }
    requires feed { IsReadyFor shift.now.flow.now.hops 0
        (Q.hops feed.old) (Q.due feed.old) (Q.ready feed.old) }
    ensures later { AreLater viewers.old viewers.new }
    ensures led { HasLed Q.took Q.left Q.ended Q.due Q.stop Q.hops Q.ready
        shift.now.flow.now.hops result feed.old feed.new
        crew.old.seens.items crew.new.seens.items }
{
    if viewers.len() == 1 {
        return lead(shift, viewers, feed, crew);
    }
    let at = viewers.len() - 1;
    let (viewers, viewer) = viewers.split_at_mut(at);
    let (_, led) = beside(shift, viewer, viewers, feed, crew);
    led
}

// A function of its own, so that what the closures require is what it is given. Where no thread can be made, the worker's side runs last,
// when no order comes any more.
#[cycle(staffs)]
fn beside<A: Agreed + Send + Sync, Q: Feed, G: Gate + Sync, R: Threads + Wait + Sync>(
    shift: &Shift<'_, '_, '_, '_, A, R, G>,
    viewer: &mut [Viewer],
    viewers: &mut [Viewer],
    feed: &mut Q,
    crew: &mut Crew<A>,
) -> ((), Result<(), RoundStop<Q::Stop>>)
    requires one { length viewer.old ≡ 1 }
    requires servant { All
        (IsServant A.board A.plan A.hops shift.now.flow.now.hops) viewer.old }
    requires some { 0 < length viewers.old }
    requires servants { All
        (IsServant A.board A.plan A.hops shift.now.flow.now.hops) viewers.old }
    requires lead { MayLead A.hops shift.now.flow.now.hops A.left (Q.left feed.old)
        crew.old.seens.items (length crew.old.benches.items) shift.now.trays.now }
    requires feed { IsReadyFor shift.now.flow.now.hops 0
        (Q.hops feed.old) (Q.due feed.old) (Q.ready feed.old) }
    ensures one_later { AreLater viewer.old viewer.new }
    ensures later { AreLater viewers.old viewers.new }
    ensures led { HasLed Q.took Q.left Q.ended Q.due Q.stop Q.hops Q.ready
        shift.now.flow.now.hops result.1 feed.old feed.new
        crew.old.seens.items crew.new.seens.items }
{
    let worker = viewers.len();
    let mut one = ||
        requires { (length viewer.now ≡ 1)
            × All (IsServant A.board A.plan A.hops shift.now.flow.now.hops) viewer.now }
        ensures { AreLater viewer.entry.now viewer.exit.now }
    { serve_alone(shift, viewer, worker) };
    let mut other = || -> Result<(), RoundStop<Q::Stop>>
        requires { IsSync R.row
            × IsSync G.row
            × IsSend A.row
            × IsSync A.row
            × (0 < length viewers.now)
            × All (IsServant A.board A.plan A.hops shift.now.flow.now.hops) viewers.now
            × MayLead A.hops shift.now.flow.now.hops A.left (Q.left feed.now)
            crew.now.seens.items (length crew.now.benches.items) shift.now.trays.now
            × IsReadyFor shift.now.flow.now.hops 0
            (Q.hops feed.now) (Q.due feed.now) (Q.ready feed.now) }
        ensures { AreLater viewers.entry.now viewers.exit.now
            × HasLed Q.took Q.left Q.ended Q.due Q.stop Q.hops Q.ready
            shift.entry.now.flow.now.hops result feed.entry.now feed.exit.now
            crew.entry.now.seens.items crew.exit.now.seens.items }
    { staff(shift, viewers, feed, crew) };
    join_mut(shift.rt, &mut one, &mut other)
}

fn serve_alone<A: Agreed, G: Gate, R: Wait>(
    shift: &Shift<'_, '_, '_, '_, A, R, G>,
    viewers: &mut [Viewer],
    worker: usize,
)
    requires one { length viewers.old ≡ 1 }
    requires servants { All
        (IsServant A.board A.plan A.hops shift.now.flow.now.hops) viewers.old }
    ensures { AreLater viewers.old viewers.new }
{
    serve(shift, &mut viewers[0], worker);
}

// The one who leads. However it ends, no order comes then: so no worker waits for one.
fn lead<A: Agreed, Q: Feed, G: Gate, R: Wait>(
    shift: &Shift<'_, '_, '_, '_, A, R, G>,
    viewers: &mut [Viewer],
    feed: &mut Q,
    crew: &mut Crew<A>,
) -> Result<(), RoundStop<Q::Stop>>
    requires one { length viewers.old ≡ 1 }
    requires servants { All
        (IsServant A.board A.plan A.hops shift.now.flow.now.hops) viewers.old }
    requires lead { MayLead A.hops shift.now.flow.now.hops A.left (Q.left feed.old)
        crew.old.seens.items (length crew.old.benches.items) shift.now.trays.now }
    requires feed { IsReadyFor shift.now.flow.now.hops 0
        (Q.hops feed.old) (Q.due feed.old) (Q.ready feed.old) }
    ensures later { AreLater viewers.old viewers.new }
    ensures led { HasLed Q.took Q.left Q.ended Q.due Q.stop Q.hops Q.ready
        shift.now.flow.now.hops result feed.old feed.new
        crew.old.seens.items crew.new.seens.items }
{
    let led = each_batch(shift, &mut viewers[0], feed, crew);
    shift.trays.close();
    led
}
