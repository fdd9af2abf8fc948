//! Between the one who leads and the workers: for each worker's number a tray, where the order for its packets of a part lies until somebody takes
//! it, and what became of each part until the one who leads takes that. Whoever is free takes the next order: so nothing waits for a thread that
//! can't be made or that comes late, and what one has taken is a part's packets at most.

ghost use Rattle.std.specs.Prelude.{◌≡◌, ◌+◌, ◌*◌, ◌<◌, ◌≤◌, length, IfSome, IfOk};

use crate::agreed::Agreed;
use crate::bench::Bench;
use crate::order::{Done, Order};
use crate::work::PARTS;
use crossbeam_utils::CachePadded;
use crossbeam_utils::atomic::LockedCell;
use mls_label::OutOfMemory;
use std::alloc::Global;
use std::marker::Model;
use std::sync::Wait;
use std::sync::atomic::{AtomicU64, Ordering};

pub type Answer<A> = Result<Done<A>, OutOfMemory>;

// Places of which each may hold something. Two threads that use neighbours don't share a line of a cache.
type Cells<T> = Vec<CachePadded<LockedCell<Option<T>>>>;

/// The trays of a round. Contracts see how many there are.
#[derive(Drop)]
pub struct Trays<A: Agreed> {
    orders: Cells<Order<A>>,
    // For each part of each tray a bench that nobody works on, and what became of the part.
    benches: Cells<Bench>,
    answers: Cells<Answer<A>>,
    ordered: Bell,
    answered: Bell,
    // Whether no order comes any more.
    closed: AtomicU64,
}

impl<A: Agreed> Model for Trays<A> {
    ghost use Rattle.std.specs.Prelude.{ℕ, ◌≡◌, ◌*◌, ◌≤◌, length};

    ghost Value = { ℕ };

    ghost view = { λ t. length t.orders.items };

    ghost invariant = { λ t. (length t.orders.items ≤ 16)
        × (length t.benches.items ≡ length t.orders.items * 8)
        × (length t.answers.items ≡ length t.orders.items * 8) };
}

// So many places that hold nothing.
fn cells<T: Drop>(alloc: Global, count: usize) -> Result<Cells<T>, OutOfMemory>
    ensures { IfOk result (λ cells. length cells.items ≡ count) }
{
    let mut cells = Vec::new(alloc);
    for _ in 0..count {
        let cell = CachePadded::new(LockedCell::new(None));
        cells.push(cell).map_err(|_| OutOfMemory)?;
    }
    Ok(cells)
}

// What threads sleep on: how often it was rung, and how many sleep.
#[derive(Drop)]
struct Bell {
    rung: AtomicU64,
    asleep: AtomicU64,
}

impl Bell {
    fn new() -> Bell {
        Bell {
            rung: AtomicU64::new(0),
            asleep: AtomicU64::new(0),
        }
    }

    fn read(&self) -> u64 {
        self.rung.load(Ordering::SeqCst)
    }

    // Wakes one of those who sleep.
    fn wake(&self) {
        if self.asleep.load(Ordering::SeqCst) > 0 {
            self.rung.wake_one();
        }
    }

    // Whoever is about to sleep finds that it was rung, or is seen to sleep here.
    fn ring(&self) {
        self.rung.fetch_add(1, Ordering::SeqCst);
        self.wake();
    }

    // The same, for all who sleep.
    fn ring_all(&self) {
        self.rung.fetch_add(1, Ordering::SeqCst);
        self.rung.wake_all();
    }

    // Waits until it is rung after it was read; it looks so often before it sleeps. Only the low 32 bits are compared by one who sleeps. True if
    // one has slept.
    fn wait<R: Wait>(&self, rt: &R, read: u64, looks: u32) -> bool {
        for _ in 0..looks {
            if self.read() != read {
                return false;
            }
        }
        self.asleep.fetch_add(1, Ordering::SeqCst);
        self.rung.park(rt, (read % (1 << 32)) as u32);
        self.asleep.fetch_sub(1, Ordering::SeqCst);
        true
    }
}

// How often one looks before one sleeps: a worker until there are orders, and the one who leads until there is an answer, which mostly comes sooner
// than a thread wakes.
const LOOKS_FOR_ORDERS: u32 = 2_000;

const LOOKS_FOR_ANSWERS: u32 = 20_000;

// Where the cells of a part of a tray are.
fn cell_of(worker: usize, place: usize) -> usize
    requires few { worker < 16 }
    requires place { place < 8 }
    ensures { result ≡ worker * 8 + place }
{
    worker * PARTS + place
}

impl<A: Agreed> Trays<A> {
    /// So many trays, where nothing lies.
    pub fn new(alloc: Global, workers: usize) -> Result<Trays<A>, OutOfMemory>
        requires { workers ≤ 16 }
        ensures { IfOk result (λ trays. trays ≡ workers) }
    {
        Ok(Trays {
            orders: cells(alloc, workers)?,
            benches: cells(alloc, workers * PARTS)?,
            answers: cells(alloc, workers * PARTS)?,
            ordered: Bell::new(),
            answered: Bell::new(),
            closed: AtomicU64::new(0),
        })
    }

    /// An order for the packets of this worker, or none. Nobody is woken.
    pub fn lay<R: Wait>(&self, rt: &R, worker: usize, order: Option<Order<A>>)
        requires { worker < self.now }
    {
        self.orders[worker].store(rt, order);
    }

    /// Says that orders lie here. It wakes one worker, who wakes the next where it finds one: a thread takes longer to wake another than to judge
    /// some packets.
    pub fn call(&self) {
        self.ordered.ring();
    }

    /// An order that nobody has taken, with its tray: that of this worker, or of one after it.
    pub fn take<R: Wait>(&self, rt: &R, worker: usize) -> Option<(usize, Order<A>)>
        ensures tray { IfSome result (λ taken. taken.0 < self.now) }
        ensures few { IfSome result (λ taken. taken.0 < 16) }
    {
        let mut at = worker;
        for _ in 0..self.orders.len() {
            if at >= self.orders.len() {
                at = 0;
            }
            if let Some(order) = self.orders[at].take(rt) {
                return Some((at, order));
            }
            at += 1;
        }
        None
    }

    /// The next order for a thread, from this worker's tray on, or none once no more will come.
    pub fn next<R: Wait>(&self, rt: &R, worker: usize) -> Option<(usize, Order<A>)>
        ensures tray { IfSome result (λ taken. taken.0 < self.now) }
        ensures few { IfSome result (λ taken. taken.0 < 16) }
    {
        let mut slept = false;
        for _ in rt.forever() {
            // The bell is read first: where it is rung from here on, one doesn't sleep.
            let read = self.ordered.read();
            if self.closed.load(Ordering::SeqCst) > 0 {
                return None;
            }
            if let Some(taken) = self.take(rt, worker) {
                if slept {
                    self.ordered.wake();
                }
                return Some(taken);
            }
            slept = self.ordered.wait(rt, read, LOOKS_FOR_ORDERS);
        }
        unreachable!()
    }

    /// A bench for a part of this worker's packets. It takes no memory.
    pub fn lend<R: Wait>(&self, rt: &R, alloc: Global, worker: usize, place: usize) -> Bench
        requires worker { worker < self.now }
        requires place { place < 8 }
    {
        match self.benches[cell_of(worker, place)].take(rt) {
            Some(bench) => bench,
            None => Bench::new(alloc),
        }
    }

    /// Takes back a bench, for a part of the next batch.
    pub fn keep<R: Wait>(&self, rt: &R, worker: usize, place: usize, bench: Bench)
        requires worker { worker < self.now }
        requires place { place < 8 }
    {
        self.benches[cell_of(worker, place)].store(rt, Some(bench));
    }

    /// Answers an order. Nobody is woken.
    pub fn answer<R: Wait>(&self, rt: &R, worker: usize, place: usize, answer: Answer<A>)
        requires worker { worker < self.now }
        requires place { place < 8 }
    {
        self.answers[cell_of(worker, place)].store(rt, Some(answer));
    }

    /// Says that an answer lies here, to the one who leads.
    pub fn tell(&self) {
        self.answered.ring();
    }

    /// What became of a part of this worker's packets, if it is judged.
    pub fn answer_of<R: Wait>(&self, rt: &R, worker: usize, place: usize) -> Option<Answer<A>>
        requires worker { worker < self.now }
        requires place { place < 8 }
    {
        self.answers[cell_of(worker, place)].take(rt)
    }

    /// How often it was said that an answer lies here.
    pub fn answered(&self) -> u64 {
        self.answered.read()
    }

    /// Waits until it is said once more.
    pub fn await_answers<R: Wait>(&self, rt: &R, read: u64) {
        self.answered.wait(rt, read, LOOKS_FOR_ANSWERS);
    }

    /// No order comes any more.
    pub fn close(&self) {
        self.closed.store(1, Ordering::SeqCst);
        self.ordered.ring_all();
    }
}
