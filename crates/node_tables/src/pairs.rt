//! Pairs of an IPv4 and an IPv6 address, looked up from both sides.

ghost use Rattle.std.specs.Prelude.{◌≡◌, [], IfOk};
ghost use Rattle.node_tables.specs.Tables.{six_of, four_of};
ghost use Rattle.node_tables.specs.Change.{pair_added, pair_deleted};
ghost use Rattle.node_tables.specs.inside.Turns.{Turns};

use crate::reply::Refusal;
use crate::stop::Stop;
use indexmap::IndexMap;
use mls_label::OutOfMemory;
use std::alloc::Global;
use std::marker::Model;

/// The most pairs of a node.
const MOST_PAIRS: usize = 256;

/// Pairs in order of insertion, kept from both sides.
#[derive(Drop)]
pub struct AddressPairs {
    sixes: IndexMap<[u8; 4], [u8; 16]>,
    fours: IndexMap<[u8; 16], [u8; 4]>,
}

impl Model for AddressPairs {
    ghost use Rattle.std.specs.Prelude.{◌≡◌, List, ℕ};
    ghost use Rattle.node_tables.specs.Tables.{swapped};

    ghost Value = { List (List ℕ × List ℕ) };

    ghost view = { λ p. p.sixes.entries };

    ghost invariant = { λ p. p.fours.entries ≡ swapped p.sixes.entries };
}

impl AddressPairs {
    /// No pair.
    pub fn empty(alloc: Global) -> AddressPairs
        ensures { result ≡ [] }
    {
        AddressPairs {
            sixes: IndexMap::new(alloc),
            fours: IndexMap::new(alloc),
        }
    }

    /// The IPv6 address that stands for an IPv4 one.
    pub fn find_six(&self, four: [u8; 4]) -> Option<[u8; 16]>
        ensures { result ≡ six_of self.now four }
    {
        self.sixes.get(&four).copied()
    }

    /// The IPv4 address that stands for an IPv6 one.
    pub fn find_four(&self, six: [u8; 16]) -> Option<[u8; 4]>
        ensures { result ≡ four_of self.now six }
    {
        self.fours.get(&six).copied()
    }

    /// Adds a pair of addresses of which neither is in a pair.
    pub fn add(&mut self, four: [u8; 4], six: [u8; 16]) -> Result<(), Stop>
        ensures { Turns (pair_added self.old four six) self.old self.new result }
    {
        if self.sixes.contains_key(&four) || self.fours.contains_key(&six) {
            return Err(Stop::Refused(Refusal::PairExists));
        }
        if self.sixes.len() >= MOST_PAIRS {
            return Err(Stop::Refused(Refusal::TableFull));
        }
        let Ok(_) = self.sixes.insert(four, six) else {
            return Err(Stop::OutOfMemory);
        };
        match self.fours.insert(six, four) {
            Ok(_) => Ok(()),
            Err(_) => {
                self.sixes.pop();
                Err(Stop::OutOfMemory)
            }
        }
    }

    /// Takes out the pair of an IPv4 address.
    pub fn del(&mut self, four: [u8; 4]) -> Result<(), Stop>
        ensures { Turns (pair_deleted self.old four) self.old self.new result }
    {
        let Some(place) = self.sixes.get_index_of(&four) else {
            return Err(Stop::Refused(Refusal::PairUnknown));
        };
        self.sixes.shift_remove_index(place);
        self.fours.shift_remove_index(place);
        Ok(())
    }

    /// The same pairs once more.
    pub fn copy(&self) -> Result<AddressPairs, OutOfMemory>
        ensures { IfOk result (λ copy. copy ≡ self.now) }
    {
        let sixes = self.sixes.clone()?;
        let fours = self.fours.clone()?;
        Ok(AddressPairs { sixes, fours })
    }
}
