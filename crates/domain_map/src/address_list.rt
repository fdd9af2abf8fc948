//! The addresses of one entry of a map, with their order by descending mask.

ghost use Rattle.std.specs.Prelude.{◌≡◌, ◌<◌, ◌≤◌, [], ◌∷◌, ◌++◌, length, None, Ok, Some, IfOk, IfErr, OnOk, OnErr, find, map, option_map, remove, slice_get};
ghost use Rattle.std.specs.List.{list_any, position};
ghost use Rattle.domain_map.specs.address_text.Prefix.{same_block, holds};
ghost use Rattle.domain_map.specs.declared.order.Ranked.{Ranked};
ghost use Rattle.domain_map.specs.Longest.{longest};
ghost use Rattle.domain_map.specs.Protocol.{has_doi};
ghost use Rattle.domain_map.specs.Addresses.{with_address, IsRefusedBy};
ghost use Rattle.domain_map.specs.inside.Order.{Tells};
ghost use Rattle.domain_map.specs.inside.Ranking.{IsRanked, passes_at};

use crate::address_text::{Address, Prefix};
use crate::fault::MapFault;
use crate::order::{Ranked, forget, rank_in};
use crate::protocol::Protocol;
use mls_label::{OutOfMemory, Proto};
use std::alloc::Global;
use std::marker::Model;

/// The most addresses of one entry.
const MOST_ADDRESSES: usize = 256;

/// Prefixes with their protocols in order of insertion, no prefix twice, at most 256.
#[derive(Drop)]
pub struct AddressList {
    entries: Vec<(Prefix, Protocol)>,
    order: Vec<Ranked>,
}

impl Model for AddressList {
    ghost use Rattle.std.specs.Prelude.{List};
    ghost use Rattle.domain_map.specs.address_text.Prefix.{AddressBlock};
    ghost use Rattle.domain_map.specs.declared.protocol.Protocol.{Protocol};

    ghost Value = { List (AddressBlock × Protocol) };

    ghost use Rattle.domain_map.specs.inside.Ranking.{IsRanked};

    ghost view = { λ l. l.entries.items };

    ghost invariant = { λ l. IsRanked (λ e. e.0) (λ e. e.0.bits) l.entries.items l.order.items };
}

impl AddressList {
    /// The list of one prefix.
    pub fn of(alloc: Global, prefix: Prefix, protocol: Protocol) -> Result<AddressList, OutOfMemory>
        ensures { IfOk result (λ list. list ≡ (prefix, protocol) ∷ []) }
    {
        let mut list = AddressList {
            entries: Vec::new(alloc),
            order: Vec::new(alloc),
        };
        list.push(prefix, protocol)?;
        Ok(list)
    }

    /// How many prefixes there are.
    pub fn len(&self) -> usize
        ensures len { result ≡ length self.now }
        ensures few { result ≤ 256 }
    {
        self.entries.len()
    }

    /// The prefix at a place, with its protocol.
    pub fn entry(&self, at: usize) -> (Prefix, Protocol)
        requires { at < length self.now }
        ensures { slice_get self.now at ≡ Some result }
    {
        self.entries[at]
    }

    /// Where a prefix stands.
    pub fn place_of(&self, prefix: &Prefix) -> Option<usize>
        ensures { result ≡ position (λ e. same_block prefix.now e.0) self.now }
    {
        place_of(&self.entries, prefix)
    }

    /// Adds a prefix behind the others. After an error nothing has changed.
    pub fn push(&mut self, prefix: Prefix, protocol: Protocol) -> Result<(), OutOfMemory>
        requires absent { position (λ e. same_block prefix e.0) self.old ≡ None }
        requires few { length self.old < 256 }
        ensures ok { OnOk result (self.new ≡ self.old ++ (prefix, protocol) ∷ []) }
        ensures err { OnErr result (self.new ≡ self.old) }
    {
        let ranked = Ranked {
            bits: prefix.bits(),
            place: self.entries.len(),
        };
        self.entries.push((prefix, protocol))?;
        if rank_in(&mut self.order, ranked).is_err() {
            self.entries.pop();
            return Err(OutOfMemory);
        }
        Ok(())
    }

    /// Takes out the prefix at a place.
    pub fn remove(&mut self, at: usize)
        requires { at < length self.old }
        ensures { self.new ≡ remove self.old at }
    {
        self.entries.remove(at);
        forget(&mut self.order, at);
    }

    /// Adds a prefix that isn't there, where there is room. After a refusal nothing has changed.
    pub fn add(&mut self, prefix: Prefix, protocol: Protocol) -> Result<(), MapFault>
        ensures ok { OnOk result (with_address self.old prefix protocol ≡ Ok self.new) }
        ensures refused { IfErr result (IsRefusedBy (with_address self.old prefix protocol)) }
        ensures err { OnErr result (self.new ≡ self.old) }
    {
        if self.place_of(&prefix).is_some() {
            return Err(MapFault::Exists);
        }
        if self.len() == MOST_ADDRESSES {
            return Err(MapFault::Full);
        }
        self.push(prefix, protocol)?;
        Ok(())
    }

    /// Whether a protocol is that of this DOI.
    pub fn names_doi(&self, proto: Proto, doi: u32) -> bool
        ensures { result ≡ list_any (λ e. has_doi proto doi e.1) self.now }
    {
        names_doi(&self.entries, proto, doi)
    }

    /// A copy.
    pub fn copy(&self, alloc: Global) -> Result<AddressList, OutOfMemory>
        ensures { IfOk result (λ copy. copy ≡ self.now) }
    {
        Ok(AddressList {
            entries: Vec::from_slice(alloc, &self.entries)?,
            order: Vec::from_slice(alloc, &self.order)?,
        })
    }

    /// The protocol of the longest prefix that holds the address.
    #[inline(always)]
    pub fn find(&self, address: &Address) -> Option<Protocol>
        ensures { result ≡ option_map (λ e. e.1) (longest (λ e. e.0) address.now self.now) }
    {
        find_in(&self.order, &self.entries, address)
    }
}

fn find_in(order: &[Ranked], entries: &[(Prefix, Protocol)], address: &Address) -> Option<Protocol>
    requires { IsRanked (λ e. e.0) (λ e. e.0.bits) entries.now order.now }
    ensures { result ≡ option_map (λ e. e.1) (longest (λ e. e.0) address.now entries.now) }
{
    let place = first_holding(order, entries, address)?;
    let entry = &entries[place];
    Some(entry.1)
}

/// The place of the first entry in the order whose prefix holds the address.
fn first_holding(
    order: &[Ranked],
    entries: &[(Prefix, Protocol)],
    address: &Address,
) -> Option<usize>
    requires tells { Tells (map (λ e. e.0.bits) entries.now) order.now }
    requires few { length entries.now ≤ 256 }
    ensures { result ≡ option_map (λ r. r.place)
        (find
        (λ (r : Ranked). passes_at
        (λ e. holds e.0 address.now) entries.now r.place) order.now) }
{
    let mut rest = order;
    while let [ranked, others @ ..] = rest {
        if entries[ranked.place].0.holds(address) {
            return Some(ranked.place);
        }
        rest = others;
    }
    None
}

fn place_of(entries: &[(Prefix, Protocol)], prefix: &Prefix) -> Option<usize>
    ensures { result ≡ position (λ e. same_block prefix.now e.0) entries.now }
{
    entries.iter().position(|entry| prefix.same(&entry.0))
}

fn names_doi(entries: &[(Prefix, Protocol)], proto: Proto, doi: u32) -> bool
    ensures { result ≡ list_any (λ e. has_doi proto doi e.1) entries.now }
{
    entries.iter().any(|entry| entry.1.has_doi(proto, doi))
}
