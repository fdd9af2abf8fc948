//! What an entry of a map says: one protocol, or one for each address.

ghost use Rattle.std.specs.Prelude.{◌≡◌, ◌<◌, ◌≤◌, length, None, Ok, Some, IfOk, IfErr, OnOk, OnErr, MatchOption, slice_get};
ghost use Rattle.std.specs.List.{list_any};
ghost use Rattle.domain_map.specs.Protocol.{has_doi};
ghost use Rattle.domain_map.specs.Domains.{first_rule, fuller, fewer, protocol_of, rule_lines};
ghost use Rattle.domain_map.specs.Addresses.{IsRefusedBy};
ghost use Rattle.domain_map.specs.inside.Fewer.{LeavesOf};

use crate::address_list::AddressList;
use crate::address_text::{Address, Prefix};
use crate::fault::MapFault;
use crate::protocol::Protocol;
use mls_label::{OutOfMemory, Proto};
use std::alloc::Global;

#[derive(Drop)]
pub enum Rule {
    /// The protocol towards every address.
    Plain(Protocol),
    /// A protocol for each prefix.
    Addresses(AddressList),
}

impl Rule {
    /// The rule of a new entry.
    pub fn first(
        alloc: Global,
        prefix: Option<Prefix>,
        protocol: Protocol,
    ) -> Result<Rule, OutOfMemory>
        ensures { IfOk result (λ rule. rule ≡ first_rule prefix protocol) }
    {
        match prefix {
            None => Ok(Rule::Plain(protocol)),
            Some(prefix) => Ok(Rule::Addresses(AddressList::of(alloc, prefix, protocol)?)),
        }
    }

    /// Adds an address. After a refusal nothing has changed.
    pub fn add(&mut self, prefix: Option<Prefix>, protocol: Protocol) -> Result<(), MapFault>
        ensures ok { OnOk result (fuller self.old prefix protocol ≡ Ok self.new) }
        ensures refused { IfErr result (IsRefusedBy (fuller self.old prefix protocol)) }
        ensures err { OnErr result (self.new ≡ self.old) }
    {
        match (self, prefix) {
            (Rule::Plain(_), None) => Err(MapFault::Exists),
            (Rule::Plain(_), Some(_)) => Err(MapFault::Plain),
            (Rule::Addresses(_), None) => Err(MapFault::HasAddresses),
            (Rule::Addresses(list), Some(prefix)) => list.add(prefix, protocol),
        }
    }

    /// Takes an address out, and tells how many are left; `None` where it isn't there.
    pub fn remove(&mut self, prefix: &Prefix) -> Option<usize>
        ensures { MatchOption result ((fewer self.old prefix.now ≡ None) × (self.new ≡ self.old))
            (LeavesOf self.old prefix.now self.new) }
    {
        match self {
            Rule::Plain(_) => None,
            Rule::Addresses(list) => {
                let at = list.place_of(prefix)?;
                list.remove(at);
                Some(list.len())
            }
        }
    }

    /// The protocol towards an address.
    #[inline(always)]
    pub fn find(&self, address: &Address) -> Option<Protocol>
        ensures { result ≡ protocol_of self.now address.now }
    {
        match self {
            Rule::Plain(protocol) => Some(*protocol),
            Rule::Addresses(list) => list.find(address),
        }
    }

    /// How many lines it has in a listing.
    pub fn lines(&self) -> usize
        ensures lines { result ≡ length (rule_lines self.now) }
        ensures few { result ≤ 256 }
    {
        match self {
            Rule::Plain(_) => 1,
            Rule::Addresses(list) => list.len(),
        }
    }

    /// A line of a listing.
    pub fn line(&self, i: usize) -> (Option<Prefix>, Protocol)
        requires { i < length (rule_lines self.now) }
        ensures { slice_get (rule_lines self.now) i ≡ Some result }
    {
        match self {
            Rule::Plain(protocol) => (None, *protocol),
            Rule::Addresses(list) => {
                let (prefix, protocol) = list.entry(i);
                (Some(prefix), protocol)
            }
        }
    }

    /// Whether a line has the protocol of this DOI.
    pub fn names_doi(&self, proto: Proto, doi: u32) -> bool
        ensures { result ≡ list_any (λ line. has_doi proto doi line.1) (rule_lines self.now) }
    {
        match self {
            Rule::Plain(protocol) => protocol.has_doi(proto, doi),
            Rule::Addresses(list) => list.names_doi(proto, doi),
        }
    }

    /// A copy.
    pub fn copy(&self, alloc: Global) -> Result<Rule, OutOfMemory>
        ensures { IfOk result (λ copy. copy ≡ self.now) }
    {
        match self {
            Rule::Plain(protocol) => Ok(Rule::Plain(*protocol)),
            Rule::Addresses(list) => Ok(Rule::Addresses(list.copy(alloc)?)),
        }
    }
}
