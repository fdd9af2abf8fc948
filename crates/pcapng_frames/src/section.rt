//! The present section: its order of octets, and the interfaces that it has described so far.
ghost use Rattle.std.specs.Prelude.{◌≡◌, ◌++◌, ◌∷◌, ◌≤◌, [], length, OnOk, OnErr};
ghost use Rattle.std.specs.List.{slice_get};
ghost use Rattle.pcapng_frames.specs.Section.{no_section};
ghost use Rattle.pcapng_frames.specs.inside.Table.{Table, KeepsTable, IsMark};

use crate::Interface;
use net_io::OctetOrder;
use std::alloc::{AllocError, Global};
use std::marker::Model;

/// The present section: its order of octets, and its interfaces, which stand behind those of earlier sections
/// that a reader can still go back to.
#[derive(Drop)]
pub struct SectionTable {
    order: OctetOrder,
    interfaces: Vec<Interface>,
    first: usize,
}

/// What a table was, to go back to.
#[derive(Clone, Copy, Debug, PartialEq, Eq)]
pub struct Mark {
    order: OctetOrder,
    first: usize,
    count: usize,
}

impl Model for SectionTable {
    ghost use Rattle.std.specs.Prelude.{◌≤◌, drop, vec_len};
    ghost use Rattle.pcapng_frames.specs.inside.Table.{Table};

    ghost Value = { Table };

    ghost view = { λ s. record { section = record { order = s.order; interfaces = drop s.first s.interfaces.items }; all = s.interfaces.items } };

    ghost invariant = { λ s. s.first ≤ vec_len s.interfaces };
}

impl SectionTable {
    /// In front of the first section header.
    pub fn new(alloc: Global) -> SectionTable
        ensures { result.section ≡ no_section }
    {
        SectionTable {
            order: OctetOrder::Little,
            interfaces: Vec::new(alloc),
            first: 0,
        }
    }

    pub fn order(&self) -> OctetOrder
        ensures { result ≡ self.now.section.order }
    {
        self.order
    }

    /// The interface that a packet names by its place.
    pub fn interface(&self, place: u32) -> Option<Interface>
        ensures { result ≡ slice_get self.now.section.interfaces place }
    {
        match self.interfaces[self.first..].get(place as usize) {
            Some(interface) => Some(*interface),
            None => None,
        }
    }

    /// A new section forgets the interfaces.
    pub fn begin(&mut self, order: OctetOrder)
        ensures section { self.new.section ≡ record { order = order; interfaces = [] } }
        ensures later { KeepsTable self.old self.new }
    {
        self.order = order;
        self.first = self.interfaces.len();
    }

    /// One more interface.
    pub fn describe(&mut self, interface: Interface) -> Result<(), AllocError>
        ensures ok { OnOk result
            (self.new.section
            ≡ record {
              order = self.old.section.order;
              interfaces = self.old.section.interfaces ++
                  (interface ∷ []);
            }) }
        ensures err { OnErr result (self.new ≡ self.old) }
        ensures later { KeepsTable self.old self.new }
    {
        self.interfaces.push(interface)?;
        Ok(())
    }

    /// Lets go of the interfaces of earlier sections.
    pub fn forget_earlier(&mut self)
        ensures { self.new.section ≡ self.old.section }
    {
        if self.first > 0 {
            let count = self.interfaces.len() - self.first;
            self.interfaces.copy_within(self.first.., 0);
            self.interfaces.truncate(count);
            self.first = 0;
        }
    }

    /// What the table is.
    pub fn mark(&self) -> Mark
        ensures mark { IsMark result self.now }
        ensures order { result.first ≤ result.count }
    {
        Mark {
            order: self.order,
            first: self.first,
            count: self.interfaces.len(),
        }
    }

    /// Goes back to what the table was.
    pub fn back(&mut self, mark: Mark)
        requires order { mark.first ≤ mark.count }
        requires later { mark.count ≤ length self.old.all }
        ensures { (old : Table) → IsMark mark old → KeepsTable old self.old
            → self.new.section ≡ old.section }
    {
        self.order = mark.order;
        self.first = mark.first;
        self.interfaces.truncate(mark.count);
    }
}
