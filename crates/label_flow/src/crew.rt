//! What the workers of a round do, and the one who leads them.

ghost use Rattle.std.specs.Prelude.{◌≡◌, ◌+◌, ◌*◌, ◌<◌, ◌≤◌, length, OnOk};
ghost use Rattle.std.specs.Arc.{arc_value};
ghost use Rattle.label_flow.specs.Round.{IsLater, AreLater};
ghost use Rattle.label_flow.specs.inside.Work.{HasCrew, part_at};
ghost use Rattle.label_flow.specs.inside.Crew.{IsServant, IsHere, MayOrder, IsShare, AreShared, IsPart};

use crate::agreed::{Agreed, Seen, Shift};
use crate::bench::Bench;
use crate::order::{Order, Share, judge, order_at};
use crate::packet_walk::{Gate, ShownWalks, WalkRoom};
use crate::trays::Answer;
use crate::work::{Batch, Part};
use mls_label::OutOfMemory;
use shared_tables::Viewer;
use std::mem;
use std::sync::{Arc, Wait};

/// What the one who leads keeps: of each worker what it has seen, and the bench with its packets of the part that is handed over; and room for its own walks,
/// and for what it shows the feed.
#[derive(Drop)]
pub struct Crew<A: Agreed> {
    pub benches: Vec<Bench>,
    pub seens: Vec<Seen<A>>,
    pub room: Option<WalkRoom>,
    pub shown: ShownWalks,
}

// Judges what is ordered, lays the order for the worker's next packets in its place, and answers.
fn fulfil<A: Agreed, G: Gate, R: Wait>(
    shift: &Shift<'_, '_, '_, '_, A, R, G>,
    viewer: &mut Viewer,
    room: &mut Option<WalkRoom>,
    worker: usize,
    order: Order<A>,
)
    requires servant { IsServant A.board A.plan A.hops shift.now.flow.now.hops viewer.old }
    requires tray { worker < shift.now.trays.now }
    ensures { IsLater viewer.old viewer.new }
{
    let place = order.place();
    let bench = shift.trays.lend(shift.rt, shift.alloc, worker, place);
    match order.fulfil(shift, viewer, bench, room) {
        Ok((done, next)) => {
            shift.trays.lay(shift.rt, worker, next);
            shift.trays.answer(shift.rt, worker, place, Ok(done));
        }
        Err(stop) => shift.trays.answer(shift.rt, worker, place, Err(stop)),
    }
}

/// The thread of a worker, until no more orders come. It goes from tray to tray, so that no worker's packets stay behind.
pub fn serve<A: Agreed, G: Gate, R: Wait>(
    shift: &Shift<'_, '_, '_, '_, A, R, G>,
    viewer: &mut Viewer,
    worker: usize,
)
    requires { IsServant A.board A.plan A.hops shift.now.flow.now.hops viewer.old }
    ensures { IsLater viewer.old viewer.new }
{
    let mut room = None;
    let mut from = worker;
    for _ in shift.rt.forever() {
        let Some((at, order)) = shift.trays.next(shift.rt, from) else {
            return;
        };
        fulfil(shift, viewer, &mut room, at, order);
        shift.trays.tell();
        from = at + 1;
    }
}

/// An order for each worker's packets of the first part of a batch.
pub fn order_all<A: Agreed, G, R: Wait>(
    shift: &Shift<'_, '_, '_, '_, A, R, G>,
    batch: &Arc<Batch>,
    seens: &[Seen<A>],
) -> Result<(), OutOfMemory>
    requires here { IsHere A.left (arc_value batch.now) }
    requires few { length seens.now ≤ 16 }
    requires workers { (arc_value batch.now).workers ≡ length seens.now }
    requires trays { shift.now.trays.now ≡ length seens.now }
{
    let mut at = 0;
    while at < seens.len() {
        let order = order_at(at as u32, seens[at].again(), Arc::try_clone(batch)?, 0);
        shift.trays.lay(shift.rt, at, order);
        at += 1;
    }
    if at > 1 {
        shift.trays.call();
    }
    Ok(())
}

// What became of a part of this worker's packets. While it isn't judged, the one who leads takes orders itself.
fn await_answer<A: Agreed, G: Gate, R: Wait>(
    shift: &Shift<'_, '_, '_, '_, A, R, G>,
    viewer: &mut Viewer,
    room: &mut Option<WalkRoom>,
    worker: usize,
    place: usize,
) -> Answer<A>
    requires servant { IsServant A.board A.plan A.hops shift.now.flow.now.hops viewer.old }
    requires tray { worker < shift.now.trays.now }
    requires place { place < 8 }
    ensures { IsLater viewer.old viewer.new }
{
    for _ in shift.rt.forever() {
        // The bell is read first: where it is rung from here on, one doesn't sleep.
        let read = shift.trays.answered();
        if let Some(answer) = shift.trays.answer_of(shift.rt, worker, place) {
            return answer;
        }
        match shift.trays.take(shift.rt, worker) {
            Some((at, order)) => fulfil(shift, viewer, room, at, order),
            None => shift.trays.await_answers(shift.rt, read),
        }
    }
    unreachable!()
}

/// What became of a part of a batch, in the workers' order.
pub fn gather<A: Agreed, G: Gate, R: Wait>(
    shift: &Shift<'_, '_, '_, '_, A, R, G>,
    batch: &Batch,
    part: Part,
    viewer: &mut Viewer,
    crew: &mut Crew<A>,
) -> Result<(), OutOfMemory>
    requires viewer { IsServant A.board A.plan A.hops shift.now.flow.now.hops viewer.old }
    requires part { IsPart A.left batch.now part }
    requires crew { HasCrew shift.now.flow.now.hops part.workers
        (length crew.old.benches.items) shift.now.trays.now crew.old.seens.items }
    ensures later { IsLater viewer.old viewer.new }
    ensures seens { AreLater crew.old.seens.items crew.new.seens.items }
    ensures benches { length crew.new.benches.items ≡ length crew.old.benches.items }
    ensures ok { OnOk result (AreShared A.hops A.left part
        crew.old.seens.items crew.new.benches.items crew.new.seens.items) }
{
    let mut at = 0;
    while at < crew.seens.len() {
        let bench = &mut crew.benches[at];
        let seen = &mut crew.seens[at];
        let share = Share {
            number: at as u32,
            batch,
            place: part.place,
        };
        take_share(shift, share, viewer, &mut crew.room, bench, seen)?;
        at += 1;
    }
    Ok(())
}

// What became of a worker's packets. An answer to something else is put aside: the one who leads then judges them itself.
fn take_share<A: Agreed, G: Gate, R: Wait>(
    shift: &Shift<'_, '_, '_, '_, A, R, G>,
    share: Share<'_>,
    viewer: &mut Viewer,
    room: &mut Option<WalkRoom>,
    bench: &mut Bench,
    seen: &mut Seen<A>,
) -> Result<(), OutOfMemory>
    requires viewer { IsServant A.board A.plan A.hops shift.now.flow.now.hops viewer.old }
    requires share { MayOrder A.left share.number share.batch.now share.place }
    requires tray { share.number < shift.now.trays.now }
    ensures later { IsLater viewer.old viewer.new }
    ensures seen { IsLater seen.old seen.new }
    ensures ok { OnOk result (IsShare A.hops A.left share.entry.number
        share.entry.batch.now.workers (share.entry.batch.now.base + share.entry.place * 128)
        (length (part_at share.entry.place share.entry.batch.now.packets.items))
        seen.old bench.new seen.new) }
{
    let worker = share.number as usize;
    let part = share.batch.part(share.place);
    let done = await_answer(shift, viewer, room, worker, share.place)?;
    if !done.answers(share.number, part, seen) {
        *seen = judge(shift, share, seen, viewer, bench, room)?;
        return Ok(());
    }
    let (made, to) = done.into_parts();
    let used = mem::replace(bench, made);
    shift.trays.keep(shift.rt, worker, share.place, used);
    *seen = to;
    Ok(())
}
