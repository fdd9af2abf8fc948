//! A round: the steps beside the packets, and the workers beside each other.

ghost use Rattle.std.specs.Prelude.{◌≡◌, ◌+◌, ◌*◌, ◌<◌, ◌≤◌, ◌^◌, List, [], ◌++◌, length, All, IfOk, IfErr, OnOk, Some, None, true, false};
ghost use Rattle.std.specs.Arc.{arc_value};
ghost use Rattle.label_commands.specs.flow_lines.Hop.{node_of};
ghost use Rattle.captures.specs.declared.packet_in.PacketIn.{PacketIn};
ghost use Rattle.label_flow.specs.Pair.{PairState};
ghost use Rattle.label_flow.specs.Feed.{AreFetched, HasFetched, IsOver, AreBegun, AreWhole};
ghost use Rattle.label_flow.specs.Round.{IsLater, AreLater, IsRound};
ghost use Rattle.label_flow.specs.Stops.{IsStop};
ghost use Rattle.label_flow.specs.inside.Work.{AreFirst, HasRoom, AllFit, part_at};
ghost use Rattle.label_flow.specs.inside.Work.{HasViewers, HasCrew};
ghost use Rattle.label_flow.specs.inside.Work.{IsReadyFor, LeavesFeed, TakesRound};
ghost use Rattle.label_flow.specs.inside.Crew.{IsServant, IsHere, IsTold, IsAt, MayLead, HasLed};
ghost use Rattle.label_flow.specs.inside.Crew.{AreOfOne};

use crate::agreed::{Agreed, Shift};
use crate::bench::Bench;
use crate::crew::{Crew, gather, order_all};
use crate::feed::Feed;
use crate::packet_walk::{Gate, PacketIn, ShownWalks};
use crate::staff::all_batches;
use crate::work::{Batch, PART, next_turn};
use label_commands::FlowLine;
use mls_label::OutOfMemory;
use shared_tables::{Publisher, Viewer};
use std::alloc::Global;
use std::sync::{Arc, Wait};
use std::thread::{Threads, join_mut};

/// Why a round stopped.
#[derive(Drop)]
pub enum RoundStop<E> {
    Feed(E),
    OutOfMemory,
}

// The steps up to a version.
fn step_to<G: Gate, R: Wait>(
    rt: &R,
    upto: u32,
    gate: &G,
    publisher: &mut Publisher,
) -> Result<(), OutOfMemory>
    requires { upto ≡ length publisher.old.plan.steps }
    ensures kept { (publisher.new.board ≡ publisher.old.board)
        × (publisher.new.plan ≡ publisher.old.plan) }
    ensures between { (publisher.old.version ≤ publisher.new.version)
        × (publisher.new.version ≤ upto) }
    ensures ok { OnOk result (publisher.new.version ≡ upto) }
{
    let _from = publisher.version();
    while publisher.version() < upto {
        let next = publisher.version() + 1;
        gate.before_step(next);
        publisher.step(rt)?;
        gate.after_step(next);
    }
    Ok(())
}

// Hands what the workers made of these packets to the feed, in their order. The first has the number `base`, counted from 0.
fn hand_over<Q: Feed>(
    base: u64,
    packets: &[PacketIn],
    done: &[Bench],
    shown: &mut ShownWalks,
    feed: &mut Q,
) -> Result<(), RoundStop<Q::Stop>>
    requires some { 0 < length done.now }
    requires few { length done.now ≤ 16 }
    requires numbers { base + length packets.now < 2 ^ 63 }
    requires ready { Q.ready feed.old }
    requires due { length packets.now ≤ Q.due feed.old }
    requires room { HasRoom (length done.now) base packets.now done.now }
    requires fits { AllFit (Q.hops feed.old) done.now }
    ensures left { Q.left feed.new ≡ Q.left feed.old }
    ensures feed { LeavesFeed result (Q.hops feed.old) (Q.hops feed.new)
        (length packets.now + Q.due feed.new) (Q.due feed.old)
        (Q.stop feed.old) (Q.stop feed.new) (Q.ready feed.new) }
    ensures took { (was : Q) (h : List PairState) → Q.took was feed.old h → (rs : List PairState)
        × AreFirst (length done.now) base done.now rs
        × (length rs ≤ length packets.now)
        × Q.took was feed.new (h ++ rs)
        × OnOk result (length rs ≡ length packets.now) }
{
    // The next pair of each worker.
    let mut places = [0usize; 16];
    let mut at = 0;
    let mut turn = (base % done.len() as u64) as u32;
    while at < packets.len() {
        let worker = turn as usize;
        let place = places[worker];
        let judged = done[worker].get(place);
        let walked = shown.show(judged.walked());
        if let Err(stop) = feed.accept(walked, judged.octets()) {
            return Err(RoundStop::Feed(stop));
        }
        places[worker] = place + 1;
        turn = next_turn(turn, done.len() as u32);
        at += 1;
    }
    Ok(())
}

// A part of a batch that was ordered: what the workers made of it is awaited, and handed over.
fn part_round<A: Agreed, Q: Feed, G: Gate, R: Wait>(
    shift: &Shift<'_, '_, '_, '_, A, R, G>,
    batch: &Batch,
    place: usize,
    viewer: &mut Viewer,
    feed: &mut Q,
    crew: &mut Crew<A>,
) -> Result<(), RoundStop<Q::Stop>>
    requires viewer { IsServant A.board A.plan A.hops shift.now.flow.now.hops viewer.old }
    requires place { place < 8 }
    requires inside { place * 128 < length batch.now.packets.items }
    requires crew { HasCrew shift.now.flow.now.hops batch.now.workers
        (length crew.old.benches.items) shift.now.trays.now crew.old.seens.items }
    requires here { IsHere A.left batch.now }
    requires hops { Q.hops feed.old ≡ length shift.now.flow.now.hops }
    requires due { length (part_at place batch.now.packets.items) ≤ Q.due feed.old }
    requires ready { Q.ready feed.old }
    ensures benches { length crew.new.benches.items ≡ length crew.old.benches.items }
    ensures later { IsLater viewer.old viewer.new }
    ensures seens { AreLater crew.old.seens.items crew.new.seens.items }
    ensures left { Q.left feed.new ≡ Q.left feed.old }
    ensures feed { LeavesFeed result (Q.hops feed.old) (Q.hops feed.new)
        (length (part_at place batch.now.packets.items) + Q.due feed.new) (Q.due feed.old)
        (Q.stop feed.old) (Q.stop feed.new) (Q.ready feed.new) }
    ensures took { TakesRound Q.took feed.old feed.new shift.now.flow.now.hops
        (batch.now.base + place * 128) None
        (λ packets. IsTold A.left (batch.now.base + place * 128) packets
        × OnOk result (length packets ≡ length (part_at place batch.now.packets.items)))
        crew.old.seens.items crew.new.seens.items }
{
    let part = batch.part(place);
    let Ok(()) = gather(shift, batch, part, viewer, crew) else {
        return Err(RoundStop::OutOfMemory);
    };
    let packets = batch.packets_at(place);
    hand_over(
        part.base,
        packets,
        crew.benches.as_slice(),
        &mut crew.shown,
        feed,
    )
}

// Judges a batch that was fetched, and hands it over part by part: the others judge the next one meanwhile.
fn judge_batch<A: Agreed, Q: Feed, G: Gate, R: Wait>(
    shift: &Shift<'_, '_, '_, '_, A, R, G>,
    batch: &Arc<Batch>,
    viewer: &mut Viewer,
    feed: &mut Q,
    crew: &mut Crew<A>,
) -> Result<(), RoundStop<Q::Stop>>
    requires viewer { IsServant A.board A.plan A.hops shift.now.flow.now.hops viewer.old }
    requires crew { HasCrew shift.now.flow.now.hops (arc_value batch.now).workers
        (length crew.old.benches.items) shift.now.trays.now crew.old.seens.items }
    requires here { IsHere A.left (arc_value batch.now) }
    requires feed { IsReadyFor shift.now.flow.now.hops
        (length (arc_value batch.now).packets.items)
        (Q.hops feed.old) (Q.due feed.old) (Q.ready feed.old) }
    ensures benches { length crew.new.benches.items ≡ length crew.old.benches.items }
    ensures later { IsLater viewer.old viewer.new }
    ensures seens { AreLater crew.old.seens.items crew.new.seens.items }
    ensures left { Q.left feed.new ≡ Q.left feed.old }
    ensures feed { LeavesFeed result (Q.hops feed.old) (Q.hops feed.new) (Q.due feed.new) 0
        (Q.stop feed.old) (Q.stop feed.new) (Q.ready feed.new) }
    ensures took { TakesRound Q.took feed.old feed.new shift.now.flow.now.hops
        (arc_value batch.now).base None
        (λ packets. IsTold A.left (arc_value batch.now).base packets
        × OnOk result (length packets ≡ length (arc_value batch.now).packets.items))
        crew.old.seens.items crew.new.seens.items }
{
    let Ok(()) = order_all(shift, batch, crew.seens.as_slice()) else {
        return Err(RoundStop::OutOfMemory);
    };
    // The others judge meanwhile.
    feed.read_ahead();
    let mut place = 0;
    while place * PART < batch.packets.len() {
        if let Err(stop) = part_round(shift, batch, place, viewer, feed, crew) {
            return Err(stop);
        }
        place += 1;
    }
    Ok(())
}

// Packets are numbered in 64 bits. A round that has had so many fetches no more, as if memory ran out; a feed that counts its packets, as those
// of `run` and `make` do, never comes to that.
const MOST: u64 = 1 << 62;

// The next packets of a feed.
fn fetch_into<Q: Feed>(
    packets: &mut Vec<PacketIn>,
    feed: &mut Q,
) -> Result<bool, RoundStop<Q::Stop>>
    requires due { Q.due feed.old ≡ 0 }
    requires ready { Q.ready feed.old }
    ensures ok { IfOk result (λ more. HasFetched (Q.left feed.old) more packets.new.items
        (Q.left feed.new) (Q.due feed.new)) }
    ensures ended { IfOk result (λ more. more ≡ false → Q.ended feed.new ≡ true) }
    ensures stop { OnOk result (Q.stop feed.new ≡ Q.stop feed.old) }
    ensures err { IfErr result (λ e. IsStop e (Q.stop feed.old) (Q.stop feed.new)) }
    ensures ready { Q.ready feed.new }
    ensures hops { Q.hops feed.new ≡ Q.hops feed.old }
    ensures took { (was : Q) (h : List PairState)
        → Q.took was feed.old h → Q.took was feed.new h }
{
    match feed.fetch(packets) {
        Ok(more) => Ok(more),
        Err(stop) => Err(RoundStop::Feed(stop)),
    }
}

// The next packets in place of those that the batch has. Where somebody still shares that, they come in a batch of their own.
fn fetch_next<Q: Feed>(
    alloc: Global,
    batch: &mut Arc<Batch>,
    feed: &mut Q,
) -> Result<bool, RoundStop<Q::Stop>>
    requires few { length (arc_value batch.old).packets.items ≤ 1024 }
    requires due { Q.due feed.old ≡ 0 }
    requires ready { Q.ready feed.old }
    ensures workers { (arc_value batch.new).workers ≡ (arc_value batch.old).workers }
    ensures base { OnOk result (((arc_value batch.old).base < 2 ^ 62)
        × ((arc_value batch.new).base
        ≡ (arc_value batch.old).base + length (arc_value batch.old).packets.items)) }
    ensures ok { IfOk result (λ more.
        HasFetched (Q.left feed.old) more (arc_value batch.new).packets.items
        (Q.left feed.new) (Q.due feed.new)) }
    ensures ended { IfOk result (λ more. more ≡ false → Q.ended feed.new ≡ true) }
    ensures stop { OnOk result (Q.stop feed.new ≡ Q.stop feed.old) }
    ensures err { IfErr result (λ e. IsStop e (Q.stop feed.old) (Q.stop feed.new)) }
    ensures ready { Q.ready feed.new }
    ensures hops { Q.hops feed.new ≡ Q.hops feed.old }
    ensures took { (was : Q) (h : List PairState)
        → Q.took was feed.old h → Q.took was feed.new h }
{
    if batch.base >= MOST {
        return Err(RoundStop::OutOfMemory);
    }
    let workers = batch.workers;
    let base = batch.base + batch.packets.len() as u64;
    if let Some(batch) = Arc::get_mut(batch) {
        batch.base = base;
        return fetch_into(&mut batch.packets, feed);
    }
    let mut packets = Vec::new(alloc);
    let more = match fetch_into(&mut packets, feed) {
        Ok(more) => more,
        Err(stop) => return Err(stop),
    };
    let next = Batch {
        workers,
        base,
        packets,
    };
    let Ok(next) = Arc::new(alloc, next) else {
        return Err(RoundStop::OutOfMemory);
    };
    *batch = next;
    Ok(more)
}

// One batch: true if there was one.
fn batch_round<A: Agreed, Q: Feed, G: Gate, R: Wait>(
    shift: &Shift<'_, '_, '_, '_, A, R, G>,
    batch: &mut Arc<Batch>,
    viewer: &mut Viewer,
    feed: &mut Q,
    crew: &mut Crew<A>,
) -> Result<bool, RoundStop<Q::Stop>>
    requires viewer { IsServant A.board A.plan A.hops shift.now.flow.now.hops viewer.old }
    requires crew { HasCrew shift.now.flow.now.hops (arc_value batch.old).workers
        (length crew.old.benches.items) shift.now.trays.now crew.old.seens.items }
    requires few { length (arc_value batch.old).packets.items ≤ 1024 }
    requires at { IsAt A.left (Q.left feed.old)
        ((arc_value batch.old).base + length (arc_value batch.old).packets.items) }
    requires feed { IsReadyFor shift.now.flow.now.hops 0
        (Q.hops feed.old) (Q.due feed.old) (Q.ready feed.old) }
    ensures workers { (arc_value batch.new).workers ≡ (arc_value batch.old).workers }
    ensures base { OnOk result ((arc_value batch.new).base
        ≡ (arc_value batch.old).base + length (arc_value batch.old).packets.items) }
    ensures benches { length crew.new.benches.items ≡ length crew.old.benches.items }
    ensures later { IsLater viewer.old viewer.new }
    ensures seens { AreLater crew.old.seens.items crew.new.seens.items }
    ensures feed { LeavesFeed result (Q.hops feed.old) (Q.hops feed.new) (Q.due feed.new) 0
        (Q.stop feed.old) (Q.stop feed.new) (Q.ready feed.new) }
    ensures ok { OnOk result ((length (arc_value batch.new).packets.items ≤ 1024)
        × AreFetched (Q.left feed.old) (arc_value batch.new).packets.items (Q.left feed.new)) }
    ensures none { IfOk result (λ more. more ≡ false → ((arc_value batch.new).packets.items ≡ [])
        × IsOver (Q.left feed.new)
        × (Q.ended feed.new ≡ true)) }
    ensures took { TakesRound Q.took feed.old feed.new shift.now.flow.now.hops
        ((arc_value batch.old).base + length (arc_value batch.old).packets.items)
        (Q.left feed.old)
        (λ packets. OnOk result (AreFetched (Q.left feed.old) packets (Q.left feed.new)
        × (length packets ≡ length (arc_value batch.new).packets.items)))
        crew.old.seens.items crew.new.seens.items }
{
    match fetch_next(shift.alloc, batch, feed) {
        Ok(true) => match judge_batch(shift, batch, viewer, feed, crew) {
            Ok(()) => Ok(true),
            Err(stop) => Err(stop),
        },
        Ok(false) => Ok(false),
        Err(stop) => Err(stop),
    }
}

/// All batches. The viewer is that of the one who leads.
pub(crate) fn each_batch<A: Agreed, Q: Feed, G: Gate, R: Wait>(
    shift: &Shift<'_, '_, '_, '_, A, R, G>,
    viewer: &mut Viewer,
    feed: &mut Q,
    crew: &mut Crew<A>,
) -> Result<(), RoundStop<Q::Stop>>
    requires viewer { IsServant A.board A.plan A.hops shift.now.flow.now.hops viewer.old }
    requires lead { MayLead A.hops shift.now.flow.now.hops A.left (Q.left feed.old)
        crew.old.seens.items (length crew.old.benches.items) shift.now.trays.now }
    requires feed { IsReadyFor shift.now.flow.now.hops 0
        (Q.hops feed.old) (Q.due feed.old) (Q.ready feed.old) }
    ensures later { IsLater viewer.old viewer.new }
    ensures led { HasLed Q.took Q.left Q.ended Q.due Q.stop Q.hops Q.ready
        shift.now.flow.now.hops result feed.old feed.new
        crew.old.seens.items crew.new.seens.items }
{
    let Ok(mut batch) = no_packets(shift.alloc, crew.seens.len()) else {
        return Err(RoundStop::OutOfMemory);
    };
    for _ in shift.rt.forever() {
        match batch_round(shift, &mut batch, viewer, feed, crew) {
            Ok(true) => {}
            Ok(false) => return Ok(()),
            Err(stop) => return Err(stop),
        }
    }
    unreachable!()
}

// A batch of no packets at the feed's start.
fn no_packets(alloc: Global, workers: usize) -> Result<Arc<Batch>, OutOfMemory>
    requires { workers ≤ 16 }
    ensures { IfOk result (λ batch. ((arc_value batch).workers ≡ workers)
        × ((arc_value batch).base ≡ 0)
        × ((arc_value batch).packets.items ≡ [])) }
{
    let batch = Batch {
        workers: workers as u32,
        base: 0,
        packets: Vec::new(alloc),
    };
    Ok(Arc::new(alloc, batch)?)
}

#[tactic(auto, using(crate::proofs::Learning::all_of_one))]
/// Makes the steps up to a version on one side, and judges the feed's packets on the other, with a worker for each viewer.
pub fn round<Q: Feed + Send, G: Gate + Sync, R: Threads + Wait + Sync>(
    rt: &R,
    alloc: Global,
    publisher: &mut Publisher,
    viewers: &mut [Viewer],
    upto: u32,
    flow: &FlowLine,
    feed: &mut Q,
    gate: &G,
) -> Result<(), RoundStop<Q::Stop>>
    requires upto { upto ≡ length publisher.old.plan.steps }
    requires viewers { (0 < length viewers.old) × (length viewers.old ≤ 16) }
    requires plan { All
        (λ v. (v.plan ≡ publisher.old.plan) × (v.board ≡ publisher.old.board)) viewers.old }
    requires nodes { All (λ hop. node_of hop < publisher.old.plan.nodes) flow.now.hops }
    requires hops { Q.hops feed.old ≡ length flow.now.hops }
    requires ready { Q.ready feed.old }
    requires due { Q.due feed.old ≡ 0 }
    requires stop { Q.stop feed.old ≡ None }
    ensures publisher { (publisher.new.board ≡ publisher.old.board)
        × (publisher.new.plan ≡ publisher.old.plan)
        × (publisher.old.version ≤ publisher.new.version)
        × (publisher.new.version ≤ upto) }
    ensures viewers { AreLater viewers.old viewers.new }
    ensures reached { OnOk result (publisher.new.version ≡ upto) }
    ensures ended { OnOk result ((Q.due feed.new ≡ 0)
        × (Q.stop feed.new ≡ None)
        × IsOver (Q.left feed.new)
        × (Q.ended feed.new ≡ true)) }
    ensures stop { IfErr result (λ e. IsStop e None (Q.stop feed.new)) }
    ensures ready { Q.ready feed.new }
    ensures took { (was : Q) (h : List PairState) → Q.took was feed.old h
        → (packets : List PacketIn) × (pairs : List PairState)
        × IsRound flow.now.hops 0 packets pairs viewers.old viewers.new
        × AreBegun (Q.left feed.old) packets
        × Q.took was feed.new (h ++ pairs)
        × OnOk result (AreWhole (Q.left feed.old) packets) }
{
    let mut steps = || step_to(rt, upto, gate, publisher);
    let mut packets = ||
        requires { HasViewers flow.now.hops viewers.now
            × AreOfOne viewers.now
            × IsReadyFor flow.now.hops 0 (Q.hops feed.now) (Q.due feed.now) (Q.ready feed.now) }
    { all_batches(rt, alloc, flow, gate, feed, viewers) };
    let (stepped, fed) = join_mut(rt, &mut steps, &mut packets);
    match fed {
        Ok(()) => match stepped {
            Ok(()) => Ok(()),
            Err(_) => Err(RoundStop::OutOfMemory),
        },
        Err(stop) => Err(stop),
    }
}
