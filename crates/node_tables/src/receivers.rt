//! Receivers by their addresses.

ghost use Rattle.std.specs.Prelude.{◌≡◌, IfOk, option_copied};
ghost use Rattle.mls_label.specs.Label.{Dominates};
ghost use Rattle.node_tables.specs.Tables.{find_receiver_of};
ghost use Rattle.node_tables.specs.Change.{receiver_added, receiver_deleted};
ghost use Rattle.node_tables.specs.Effect.{receiver_of};
ghost use Rattle.node_tables.specs.inside.Turns.{Turns};

use crate::key::entry_at;
use crate::receiver::Receiver;
use crate::reply::Refusal;
use crate::stop::Stop;
use domain_map::{Address, Name};
use indexmap::IndexMap;
use mls_label::{Label, OutOfMemory};
use mls_range::Range;
use std::alloc::Global;
use std::marker::Model;

/// The most receivers of a node.
const MOST_RECEIVERS: usize = 256;

/// So many receivers are gone over, which costs less than a hash.
const FEW: usize = 8;

/// A receiver on the heap, whose level dominates its low end: what is moved is a pointer, and not the 16 kB of its labels.
#[derive(Drop)]
pub struct KeptReceiver {
    kept: Box<Receiver>,
}

impl Model for KeptReceiver {
    ghost use Rattle.node_tables.specs.declared.receiver.Receiver.{Receiver};

    ghost Value = { Receiver };

    ghost use Rattle.mls_label.specs.Label.{Dominates};

    ghost view = { λ k. k.kept.value };

    ghost invariant = { λ k. Dominates k.kept.value.level k.kept.value.low };
}

impl KeptReceiver {
    /// Keeps a receiver of this domain, whose labels are the ends of the range.
    pub fn of(alloc: Global, domain: &Name, range: &Range) -> Result<KeptReceiver, OutOfMemory>
        ensures { IfOk result (λ kept. kept ≡ receiver_of domain.now range.now) }
    {
        Ok(KeptReceiver {
            kept: boxed(alloc, domain, range.low(), range.high())?,
        })
    }

    /// The receiver.
    pub fn receiver(&self) -> &Receiver
        ensures value { result.now ≡ self.now }
        ensures ordered { Dominates self.now.level self.now.low }
    {
        &self.kept
    }

    /// Keeps the same receiver once more.
    pub fn copy(&self, alloc: Global) -> Result<KeptReceiver, OutOfMemory>
        ensures { IfOk result (λ copy. copy ≡ self.now) }
    {
        let receiver = self.receiver();
        Ok(KeptReceiver {
            kept: boxed(alloc, &receiver.domain, &receiver.low, &receiver.level)?,
        })
    }
}

fn boxed(
    alloc: Global,
    domain: &Name,
    low: &Label,
    level: &Label,
) -> Result<Box<Receiver>, OutOfMemory>
    ensures { IfOk result
        (λ b. b.value ≡ record { domain = domain.now; low = low.now; level = level.now }) }
{
    let mut boxed = Box::new(
        alloc,
        Receiver {
            domain: domain.copy(),
            low: Label::lowest(),
            level: Label::lowest(),
        },
    )?;
    boxed.low.assign(low);
    boxed.level.assign(level);
    Ok(boxed)
}

/// The receiver at an address.
pub fn find_receiver<'a>(
    receivers: &'a IndexMap<Address, KeptReceiver>,
    address: &Address,
) -> Option<&'a KeptReceiver>
    ensures { option_copied result ≡ find_receiver_of receivers.now.entries address.now }
{
    if receivers.len() <= FEW {
        first_at(receivers, address)
    } else {
        receivers.get(address)
    }
}

// The same from the front.
fn first_at<'a>(
    receivers: &'a IndexMap<Address, KeptReceiver>,
    address: &Address,
) -> Option<&'a KeptReceiver>
    ensures { option_copied result ≡ find_receiver_of receivers.now.entries address.now }
{
    for place in 0..receivers.len() {
        let (own, receiver) = entry_at(receivers, place);
        if address.same(own) {
            return Some(receiver);
        }
    }
    None
}

/// Adds a receiver at an address that has none.
pub fn add_receiver(
    receivers: &mut IndexMap<Address, KeptReceiver>,
    address: &Address,
    domain: &Name,
    range: &Range,
) -> Result<(), Stop>
    ensures { Turns
        (receiver_added receivers.old.entries address.now (receiver_of domain.now range.now))
        receivers.old.entries receivers.new.entries result }
{
    if receivers.contains_key(address) {
        return Err(Stop::Refused(Refusal::ReceiverExists));
    }
    if receivers.len() >= MOST_RECEIVERS {
        return Err(Stop::Refused(Refusal::TableFull));
    }
    let receiver = KeptReceiver::of(*receivers.allocator(), domain, range)?;
    match receivers.insert(*address, receiver) {
        Ok(_) => Ok(()),
        Err(_) => Err(Stop::OutOfMemory),
    }
}

/// Takes out the receiver at an address.
pub fn del_receiver(
    receivers: &mut IndexMap<Address, KeptReceiver>,
    address: &Address,
) -> Result<(), Stop>
    ensures { Turns (receiver_deleted receivers.old.entries address.now)
        receivers.old.entries receivers.new.entries result }
{
    match receivers.shift_remove(address) {
        Some(_) => Ok(()),
        None => Err(Stop::Refused(Refusal::ReceiverUnknown)),
    }
}

/// The same receivers once more.
pub fn copy_receivers(
    receivers: &IndexMap<Address, KeptReceiver>,
) -> Result<IndexMap<Address, KeptReceiver>, OutOfMemory>
    ensures { IfOk result (λ copy. copy.entries ≡ receivers.now.entries) }
{
    let alloc = *receivers.allocator();
    let mut copy = IndexMap::new(alloc);
    for place in 0..receivers.len() {
        let (address, receiver) = entry_at(receivers, place);
        copy.insert(*address, receiver.copy(alloc)?)?;
    }
    Ok(copy)
}
