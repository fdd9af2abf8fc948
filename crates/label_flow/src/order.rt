//! What goes to a worker, and what comes back.

ghost use Rattle.std.specs.Prelude.{◌≡◌, ◌+◌, ◌*◌, ◌<◌, ◌≤◌, true, length, IfOk};
ghost use Rattle.std.specs.Arc.{arc_value};
ghost use Rattle.label_flow.specs.Round.{IsLater};
ghost use Rattle.label_flow.specs.inside.Work.{part_at};
ghost use Rattle.label_flow.specs.inside.Crew.{MayOrder, IsShare, IsServant, IsHere};

use crate::agreed::{Agreed, Seen, Shift};
use crate::bench::Bench;
use crate::packet_walk::{Gate, WalkRoom, Worker};
use crate::work::{Batch, PART, Part, work};
use mls_label::OutOfMemory;
use shared_tables::Viewer;
use std::marker::Model;
use std::sync::Arc;

/// A worker's packets of a part of a batch.
#[derive(Clone, Copy)]
pub struct Share<'b> {
    pub number: u32,
    pub batch: &'b Batch,
    pub place: usize,
}

/// An order for a worker's packets of a part of a batch, of which none is to be judged below what was seen.
#[derive(Drop)]
pub struct Order<A: Agreed> {
    number: u32,
    from: Seen<A>,
    batch: Arc<Batch>,
    place: usize,
}

impl<A: Agreed> Model for Order<A> {
    ghost use Rattle.std.specs.Arc.{arc_value};
    ghost use Rattle.label_flow.specs.inside.Crew.{OrderState, MayOrder};

    ghost Value = { OrderState };

    ghost view = { λ o. record { number = o.number; from = o.from; batch = arc_value o.batch; place = o.place } };

    ghost invariant = { λ o. MayOrder A.left o.number (arc_value o.batch) o.place };
}

/// The same packets, judged: what was made of them stands on the bench.
#[derive(Drop)]
pub struct Done<A: Agreed> {
    number: u32,
    part: Part,
    from: Seen<A>,
    to: Seen<A>,
    bench: Bench,
}

impl<A: Agreed> Model for Done<A> {
    ghost use Rattle.label_flow.specs.inside.Crew.{DoneState, IsShare};

    ghost Value = { DoneState };

    ghost view = { λ d. record { number = d.number; part = d.part; from = d.from; to = d.to; pairs = d.bench } };

    ghost invariant = { λ d. IsShare A.hops A.left d.number d.part.workers d.part.base d.part.count
        d.from d.bench d.to };
}

/// An order, or none where the batch has no part at this place.
pub fn order_at<A: Agreed>(
    number: u32,
    from: Seen<A>,
    batch: Arc<Batch>,
    place: usize,
) -> Option<Order<A>>
    requires worker { number < (arc_value batch).workers }
    requires here { IsHere A.left (arc_value batch) }
    requires place { place ≤ 8 }
{
    if place * PART >= batch.packets.len() {
        return None;
    }
    Some(Order {
        number,
        from,
        batch,
        place,
    })
}

/// Judges a share, of which nothing is judged below what was seen; and what the viewer has seen after it.
pub fn judge<A: Agreed, R, G: Gate>(
    shift: &Shift<'_, '_, '_, '_, A, R, G>,
    share: Share<'_>,
    from: &Seen<A>,
    viewer: &mut Viewer,
    bench: &mut Bench,
    room: &mut Option<WalkRoom>,
) -> Result<Seen<A>, OutOfMemory>
    requires share { MayOrder A.left share.number share.batch.now share.place }
    requires viewer { IsServant A.board A.plan A.hops shift.now.flow.now.hops viewer.old }
    ensures later { IsLater viewer.old viewer.new }
    ensures share { IfOk result (λ to. IsShare A.hops A.left share.entry.number
        share.entry.batch.now.workers (share.entry.batch.now.base + share.entry.place * 128)
        (length (part_at share.entry.place share.entry.batch.now.packets.items))
        from.now bench.new to) }
{
    from.teach(viewer);
    let worker = Worker {
        flow: shift.flow,
        number: share.number,
        gate: shift.gate,
    };
    let part = share.batch.part(share.place);
    let packets = share.batch.packets_at(share.place);
    work(&worker, part, packets, viewer, bench, room)?;
    Ok(Seen::of(viewer))
}

impl<A: Agreed> Order<A> {
    /// Which part of its batch it is for.
    pub fn place(&self) -> usize
        ensures { result < 8 }
    {
        self.place
    }

    // Judges the packets.
    fn work<R, G: Gate>(
        &self,
        shift: &Shift<'_, '_, '_, '_, A, R, G>,
        viewer: &mut Viewer,
        bench: &mut Bench,
        room: &mut Option<WalkRoom>,
    ) -> Result<Seen<A>, OutOfMemory>
        requires { IsServant A.board A.plan A.hops shift.now.flow.now.hops viewer.old }
        ensures later { IsLater viewer.old viewer.new }
        ensures share { IfOk result (λ to. IsShare A.hops A.left self.now.number
            self.now.batch.workers (self.now.batch.base + self.now.place * 128)
            (length (part_at self.now.place self.now.batch.packets.items))
            self.now.from bench.new to) }
    {
        let share = Share {
            number: self.number,
            batch: &self.batch,
            place: self.place,
        };
        judge(shift, share, &self.from, viewer, bench, room)
    }

    /// Judges the packets at this bench. Behind the answer stands the order for the worker's next packets of the batch, from what was seen then.
    pub fn fulfil<R, G: Gate>(
        self,
        shift: &Shift<'_, '_, '_, '_, A, R, G>,
        viewer: &mut Viewer,
        bench: Bench,
        room: &mut Option<WalkRoom>,
    ) -> Result<(Done<A>, Option<Order<A>>), OutOfMemory>
        requires { IsServant A.board A.plan A.hops shift.now.flow.now.hops viewer.old }
        ensures { IsLater viewer.old viewer.new }
    {
        let mut bench = bench;
        let to = self.work(shift, viewer, &mut bench, room)?;
        let Order {
            number,
            from,
            batch,
            place,
        } = self;
        let part = batch.part(place);
        let next = order_at(number, to.again(), batch, place + 1);
        let done = Done {
            number,
            part,
            from,
            to,
            bench,
        };
        Ok((done, next))
    }
}

impl<A: Agreed> Done<A> {
    /// Whether this is what was asked for: that worker's packets of that part, from what was seen. A part is known by its numbers.
    pub fn answers(&self, number: u32, part: Part, from: &Seen<A>) -> bool
        ensures { result ≡ true
            → IsShare A.hops A.left number part.workers part.base part.count
            from.now self.now.pairs self.now.to }
    {
        self.number == number
            && self.part.workers == part.workers
            && self.part.base == part.base
            && self.part.count == part.count
            && self.from.is(from)
    }

    /// What was made, and what the viewer has seen after it.
    pub fn into_parts(self) -> (Bench, Seen<A>)
        ensures bench { result.0 ≡ self.pairs }
        ensures to { result.1 ≡ self.to }
    {
        let Done { bench, to, .. } = self;
        (bench, to)
    }
}
