//! The map from domains and addresses to protocols.

ghost use Rattle.std.specs.Prelude.{◌≡◌, ◌<◌, ◌≤◌, [], length, None, Ok, Some, IfOk, IfErr, OnOk, OnErr, MatchOption, option_copied, slice_get};
ghost use Rattle.std.specs.List.{position, list_any, flat_map};
ghost use Rattle.std.specs.Map.{keys_of};
ghost use Rattle.domain_map.specs.Addresses.{IsRefusedBy};
ghost use Rattle.domain_map.specs.Domains.{Domain, same_domain, added, deleted, find_of, names_doi_of, lines_of};

use crate::address_text::{Address, Name, Prefix};
use crate::fault::{MapFault, Unknown};
use crate::named::value_or_default;
use crate::protocol::Protocol;
use crate::rule::Rule;
use indexmap::IndexMap;
use mls_label::{OutOfMemory, Proto};
use std::alloc::Global;
use std::marker::Model;

/// The most entries of a map.
const MOST_DOMAINS: usize = 256;

/// Which protocol a domain uses towards an address. Contracts see the entries in order of insertion, each a domain, or the
/// default one, with its rule.
#[derive(Drop)]
pub struct DomainMap {
    rules: IndexMap<Option<Name>, Rule>,
}

impl Model for DomainMap {
    ghost use Rattle.std.specs.Prelude.{◌≤◌, List, ℕ, Option, length};
    ghost use Rattle.domain_map.specs.declared.rule.Rule.{Rule};

    ghost Value = { List (Option (List ℕ) × Rule) };

    ghost view = { λ m. m.rules.entries };

    ghost invariant = { λ m. length m.rules.entries ≤ 256 };
}

impl DomainMap {
    /// The map without an entry.
    pub fn empty(alloc: Global) -> DomainMap
        ensures { result ≡ [] }
    {
        DomainMap {
            rules: IndexMap::new(alloc),
        }
    }

    #[tactic(auto, unfolding(crate::specs::Domains::find_of))]
    /// The protocol of a domain towards an address: by the domain's entry, or else by the default one. An entry with addresses
    /// gives that of the longest prefix that holds the address, and `None` where none does.
    #[inline(always)]
    pub fn find(&self, domain: &Name, address: &Address) -> Option<Protocol>
        ensures { result ≡ find_of self.now domain.now address.now }
    {
        value_or_default(&self.rules, domain)?.find(address)
    }

    /// Adds an entry, or an address to the entry of a domain; `None` is the default domain. After a refusal nothing has changed.
    pub fn add(
        &mut self,
        domain: Option<&Name>,
        prefix: Option<Prefix>,
        protocol: Protocol,
    ) -> Result<(), MapFault>
        ensures ok { OnOk result
            (added self.old (option_copied domain.entry) prefix protocol ≡ Ok self.new) }
        ensures refused { IfErr result
            (IsRefusedBy (added self.old (option_copied domain.entry) prefix protocol)) }
        ensures err { OnErr result (self.new ≡ self.old) }
    {
        let key = key_of(domain);
        match self.rules.get_index_of(&key) {
            Some(place) => self.add_to(&key, place, prefix, protocol),
            None => self.add_entry(key, prefix, protocol),
        }
    }

    // Adds an address to the entry at the place.
    fn add_to(
        &mut self,
        key: &Option<Name>,
        place: usize,
        prefix: Option<Prefix>,
        protocol: Protocol,
    ) -> Result<(), MapFault>
        requires { position (same_domain key.now) (keys_of self.old) ≡ Some place }
        ensures ok { OnOk result (added self.old key.now prefix protocol ≡ Ok self.new) }
        ensures refused { IfErr result (IsRefusedBy (added self.old key.now prefix protocol)) }
        ensures err { OnErr result (self.new ≡ self.old) }
    {
        match self.rules.get_index_mut(place) {
            Some(rule) => rule.add(prefix, protocol),
            None => unreachable!(),
        }
    }

    fn add_entry(
        &mut self,
        key: Option<Name>,
        prefix: Option<Prefix>,
        protocol: Protocol,
    ) -> Result<(), MapFault>
        requires { position (same_domain key) (keys_of self.old) ≡ None }
        ensures ok { OnOk result (added self.old key prefix protocol ≡ Ok self.new) }
        ensures refused { IfErr result (IsRefusedBy (added self.old key prefix protocol)) }
        ensures err { OnErr result (self.new ≡ self.old) }
    {
        if self.rules.len() == MOST_DOMAINS {
            return Err(MapFault::Full);
        }
        let alloc = *self.rules.allocator();
        let rule = Rule::first(alloc, prefix, protocol)?;
        match self.rules.insert(key, rule) {
            Ok(_) => Ok(()),
            Err(_) => Err(MapFault::OutOfMemory),
        }
    }

    #[tactic(auto, unfolding(crate::specs::Domains::deleted))]
    /// Removes a domain with all its addresses, or one address, and the domain with its last. After a refusal nothing has
    /// changed.
    pub fn del(&mut self, domain: Option<&Name>, prefix: Option<Prefix>) -> Result<(), Unknown>
        ensures ok { OnOk result
            (deleted self.old (option_copied domain.entry) prefix ≡ Some self.new) }
        ensures unknown { OnErr result
            (deleted self.old (option_copied domain.entry) prefix ≡ None) }
        ensures err { OnErr result (self.new ≡ self.old) }
    {
        let key = key_of(domain);
        let Some(place) = self.rules.get_index_of(&key) else {
            return Err(Unknown);
        };
        match prefix {
            None => {
                self.rules.shift_remove_index(place);
                Ok(())
            }
            Some(prefix) => self.del_address(&key, place, &prefix),
        }
    }

    // Removes an address from the entry at the place.
    fn del_address(
        &mut self,
        key: &Option<Name>,
        place: usize,
        prefix: &Prefix,
    ) -> Result<(), Unknown>
        requires { position (same_domain key.now) (keys_of self.old) ≡ Some place }
        ensures ok { OnOk result (deleted self.old key.now (Some prefix.now) ≡ Some self.new) }
        ensures unknown { OnErr result (deleted self.old key.now (Some prefix.now) ≡ None) }
        ensures err { OnErr result (self.new ≡ self.old) }
    {
        let left = match self.rules.get_index_mut(place) {
            Some(rule) => rule.remove(prefix),
            None => unreachable!(),
        };
        let Some(left) = left else {
            return Err(Unknown);
        };
        if left > 0 {
            return Ok(());
        }
        self.rules.shift_remove_index(place);
        Ok(())
    }

    #[tactic(auto, unfolding(crate::specs::Domains::names_doi_of))]
    /// Whether an entry has the protocol of this DOI.
    pub fn names_doi(&self, proto: Proto, doi: u32) -> bool
        ensures { result ≡ names_doi_of self.now proto doi }
    {
        self.rules
            .iter()
            .any(|(_, rule)| rule.names_doi(proto, doi))
    }

    /// How many lines `map list` has.
    pub fn count(&self) -> usize
        ensures { result ≡ length (lines_of self.now) }
    {
        count_of(&self.rules)
    }

    /// A line of `map list`, counted from 0: by entries in order of insertion, and within an entry by its addresses.
    pub fn entry(&self, i: usize) -> (Option<&Name>, Option<Prefix>, Protocol)
        requires { i < length (lines_of self.now) }
        ensures { slice_get (lines_of self.now) i ≡ Some
            (option_copied result.0, result.1, result.2) }
    {
        line_of(&self.rules, i)
    }

    /// A copy.
    pub fn copy(&self) -> Result<DomainMap, OutOfMemory>
        ensures { IfOk result (λ copy. copy ≡ self.now) }
    {
        let rules = copy_of(&self.rules)?;
        Ok(DomainMap { rules })
    }
}

/// The key of a domain or an interface.
pub fn key_of(domain: Option<&Name>) -> Option<Name>
    ensures { result ≡ option_copied domain.entry }
{
    match domain {
        Some(name) => Some(name.copy()),
        None => None,
    }
}

#[tactic(auto, unfolding(crate::specs::Domains::lines_of))]
fn count_of(rules: &IndexMap<Option<Name>, Rule>) -> usize
    requires { length rules.now.entries ≤ 256 }
    ensures { result ≡ length (lines_of rules.now.entries) }
{
    let mut count = 0;
    for place in 0..rules.len() {
        count += entry_at(rules, place).1.lines();
    }
    count
}

#[tactic(auto, unfolding(crate::specs::Domains::lines_of))]
fn line_of(
    rules: &IndexMap<Option<Name>, Rule>,
    i: usize,
) -> (Option<&Name>, Option<Prefix>, Protocol)
    requires { i < length (lines_of rules.now.entries) }
    ensures { slice_get (lines_of rules.now.entries) i ≡ Some
        (option_copied result.0, result.1, result.2) }
{
    let mut left = i;
    for place in 0..rules.len() {
        let (domain, rule) = entry_at(rules, place);
        let lines = rule.lines();
        if left < lines {
            let (prefix, protocol) = rule.line(left);
            return (domain.as_ref(), prefix, protocol);
        }
        left -= lines;
    }
    unreachable!()
}

fn copy_of(
    rules: &IndexMap<Option<Name>, Rule>,
) -> Result<IndexMap<Option<Name>, Rule>, OutOfMemory>
    ensures { IfOk result (λ copy. copy.entries ≡ rules.now.entries) }
{
    let alloc = *rules.allocator();
    let mut copy = IndexMap::new(alloc);
    for place in 0..rules.len() {
        let (domain, rule) = entry_at(rules, place);
        copy.insert(key_of(domain.as_ref()), rule.copy(alloc)?)?;
    }
    Ok(copy)
}

/// The entry at a place.
pub fn entry_at<V>(entries: &IndexMap<Option<Name>, V>, place: usize) -> (&Option<Name>, &V)
    requires { place < length entries.now.entries }
    ensures { slice_get entries.now.entries place ≡ Some (result.0.now, result.1.now) }
{
    match entries.get_index(place) {
        Some(entry) => entry,
        None => unreachable!(),
    }
}
