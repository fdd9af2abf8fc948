//! A place that is filled for one packet after another.

ghost use Rattle.std.specs.Prelude.{◌≡◌, ◌<◌, ◌≤◌, [], ◌∷◌, ◌++◌, length, take, OnOk};
ghost use Rattle.packet_label.specs.declared.denial.Denial.TheVariants.{NotIp};
ghost use Rattle.label_flow.specs.declared.packet_walk.walked.End.TheVariants.{Delivered, Sent, Denied};

use crate::packet_walk::walked::{End, Versions, Walked};
use domain_map::Address;
use mls_label::{Label, OutOfMemory, PackedLabel};
use packet_label::{Carrier, Denial};
use std::alloc::Global;
use std::marker::Model;

/// How a walk ended, but for the label that was delivered.
#[derive(Clone, Copy, Debug, PartialEq, Eq)]
pub enum EndMark {
    Delivered { receiver: Address },
    Sent { carrier: Carrier },
    Denied { hop: u32, denial: Denial },
}

/// What became of a packet, in a small place that is filled again for the next one: a label of a few runs stands in it, a longer one in
/// part on the heap. Contracts see it as a `Walked`.
#[derive(Drop)]
pub struct WalkedSlot {
    mark: EndMark,
    label: PackedLabel,
    versions: Versions,
}

impl Model for WalkedSlot {
    ghost use Rattle.label_flow.specs.declared.packet_walk.walked.Walked.{Walked};
    ghost use Rattle.label_flow.specs.packet_walk.inside.Slot.{end_shown};

    ghost Value = { Walked };

    ghost view = { λ slot. record { end = end_shown slot.mark slot.label; versions = slot.versions } };
}

impl WalkedSlot {
    /// A place in which a frame without a packet of IP is denied. Takes no memory.
    pub fn new(alloc: Global) -> WalkedSlot
        ensures { result ≡ record { end = Denied 0 NotIp; versions = [] } }
    {
        WalkedSlot {
            mark: EndMark::Denied {
                hop: 0,
                denial: Denial::NotIp,
            },
            label: PackedLabel::lowest(alloc),
            versions: Versions::empty(),
        }
    }

    // No hop judged a packet yet.
    pub(crate) fn begin(&mut self)
        ensures { self.new.versions ≡ [] }
    {
        self.versions.keep(0);
    }

    // The next hop behind so many judged it under this version.
    pub(crate) fn judged_under(&mut self, hops: usize, version: u32)
        requires { (hops < 16) × (hops ≤ length self.old.versions) }
        ensures { self.new.versions ≡ take hops self.old.versions ++ version ∷ [] }
    {
        self.versions.put(hops, version);
    }

    // Only so many hops judged it.
    pub(crate) fn judged_by(&mut self, hops: usize)
        requires { hops ≤ length self.old.versions }
        ensures { self.new ≡ record self.old { versions = take hops self.old.versions } }
    {
        self.versions.keep(hops);
    }

    pub(crate) fn deliver(&mut self, label: &Label, receiver: Address) -> Result<(), OutOfMemory>
        ensures { OnOk result
            (self.new ≡ record self.old { end = Delivered label.now receiver }) }
    {
        self.mark = EndMark::Delivered { receiver };
        self.label.keep(label)
    }

    pub(crate) fn send(&mut self, carrier: Carrier)
        ensures { self.new ≡ record self.old { end = Sent carrier } }
    {
        self.mark = EndMark::Sent { carrier };
    }

    pub(crate) fn deny(&mut self, hop: u32, denial: Denial)
        ensures { self.new ≡ record self.old { end = Denied hop denial } }
    {
        self.mark = EndMark::Denied { hop, denial };
    }

    /// What became of the packet, which moves the label.
    pub fn into_walked(self) -> Walked
        ensures { result ≡ self }
    {
        let end = match self.mark {
            EndMark::Delivered { receiver } => delivered(&self.label, receiver),
            EndMark::Sent { carrier } => End::Sent { carrier },
            EndMark::Denied { hop, denial } => End::Denied { hop, denial },
        };
        Walked {
            end,
            versions: self.versions,
        }
    }
}

// The end of a packet that was delivered with the label that is kept.
fn delivered(kept: &PackedLabel, receiver: Address) -> End
    ensures { result ≡ Delivered kept.now receiver }
{
    let mut label = Label::lowest();
    kept.show(&mut label);
    End::Delivered { label, receiver }
}

/// Places in which what became of packets is shown one after another, one for each end.
#[derive(Drop)]
pub struct ShownWalks {
    delivered: Walked,
    sent: Walked,
    denied: Walked,
}

// A place with any walk.
fn any_walk() -> Walked {
    Walked {
        end: End::Denied {
            hop: 0,
            denial: Denial::NotIp,
        },
        versions: Versions::empty(),
    }
}

impl ShownWalks {
    /// Places with any walk.
    pub fn new() -> ShownWalks {
        ShownWalks {
            delivered: any_walk(),
            sent: any_walk(),
            denied: any_walk(),
        }
    }

    /// What became of the packet.
    #[inline(always)]
    pub fn show(&mut self, slot: &WalkedSlot) -> &Walked
        ensures { result.now ≡ slot.now }
    {
        match slot.mark {
            EndMark::Delivered { receiver } => {
                self.delivered.versions.assign(&slot.versions);
                be_delivered(&slot.label, receiver, &mut self.delivered.end);
                &self.delivered
            }
            EndMark::Sent { carrier } => {
                self.sent.versions.assign(&slot.versions);
                be_sent(carrier, &mut self.sent.end);
                &self.sent
            }
            EndMark::Denied { hop, denial } => {
                self.denied.versions.assign(&slot.versions);
                be_denied(hop, denial, &mut self.denied.end);
                &self.denied
            }
        }
    }
}

// The room of an end is a label's: it is written as a whole only where it held another end.
#[inline(always)]
fn be_delivered(kept: &PackedLabel, receiver: Address, end: &mut End)
    ensures { end.new ≡ Delivered kept.now receiver }
{
    if let End::Delivered {
        label,
        receiver: old,
    } = end
    {
        kept.show(label);
        *old = receiver;
    } else {
        *end = delivered(kept, receiver);
    }
}

fn be_sent(carrier: Carrier, end: &mut End)
    ensures { end.new ≡ Sent carrier }
{
    if let End::Sent { carrier: old } = end {
        *old = carrier;
    } else {
        *end = End::Sent { carrier };
    }
}

fn be_denied(hop: u32, denial: Denial, end: &mut End)
    ensures { end.new ≡ Denied hop denial }
{
    if let End::Denied {
        hop: number,
        denial: old,
    } = end
    {
        *number = hop;
        *old = denial;
    } else {
        *end = End::Denied { hop, denial };
    }
}
