//! Labels of unlabelled traffic, by interface and address.

ghost use Rattle.std.specs.Prelude.{◌≡◌, ◌<◌, ◌≤◌, [], ◌∷◌, ◌++◌, length, None, Ok, Some, IfOk, IfErr, IfSome, OnOk, OnErr, MatchOption, find, filter, map, remove, option_copied, option_map, slice_get, nat_eq, ◌&&◌};
ghost use Rattle.std.specs.List.{list_any, position};
ghost use Rattle.mls_label.specs.Label.{Dominates};
ghost use Rattle.domain_map.specs.address_text.Prefix.{holds, same_block};
ghost use Rattle.domain_map.specs.declared.order.Ranked.{Ranked};
ghost use Rattle.domain_map.specs.Domains.{same_domain};
ghost use Rattle.domain_map.specs.Statics.{Statics, IsStaticRefusal, static_place, static_added, static_deleted, find_static_of, counting, candidates};
ghost use Rattle.domain_map.specs.Longest.{longest};
ghost use Rattle.domain_map.specs.inside.Order.{Tells};
ghost use Rattle.domain_map.specs.inside.Ranking.{IsRanked, passes_at};
ghost use Rattle.domain_map.specs.inside.Ordered.{static_key, static_bits};

use crate::address_text::{Address, Name, Prefix};
use crate::fault::{StaticFault, Unknown};
use crate::map::key_of;
use crate::named::is_named;
use crate::order::{Ranked, forget, rank_in};
use mls_label::{KeptLabel, Label, OutOfMemory};
use std::alloc::Global;
use std::marker::Model;

/// The most entries.
const MOST_ENTRIES: usize = 256;

/// Which labels unlabelled traffic has that comes over an interface, or over any without an entry of its own, from an address.
#[derive(Drop)]
pub struct StaticEntry {
    pub interface: Option<Name>,
    pub prefix: Prefix,
    pub low: KeptLabel,
    pub high: KeptLabel,
}

/// The entries of all interfaces. Contracts see them in order of insertion.
#[derive(Drop)]
pub struct StaticMap {
    entries: Vec<StaticEntry>,
    order: Vec<Ranked>,
}

impl Model for StaticMap {
    ghost use Rattle.std.specs.Prelude.{List};
    ghost use Rattle.domain_map.specs.declared.static_map.StaticEntry.{StaticEntry};

    ghost Value = { List StaticEntry };

    ghost use Rattle.domain_map.specs.inside.Ordered.{AreStatics};

    ghost view = { λ m. m.entries.items };

    ghost invariant = { λ m. AreStatics m.entries.items m.order.items };
}

impl StaticMap {
    /// The map without an entry.
    pub fn empty(alloc: Global) -> StaticMap
        ensures { result ≡ [] }
    {
        StaticMap {
            entries: Vec::new(alloc),
            order: Vec::new(alloc),
        }
    }

    #[tactic(auto, unfolding(crate::specs::Statics::static_added))]
    /// Adds the labels of an interface and a prefix; `None` is the default interface. After a refusal nothing has changed.
    pub fn add(
        &mut self,
        interface: Option<&Name>,
        prefix: Prefix,
        low: &Label,
        high: &Label,
    ) -> Result<(), StaticFault>
        requires { Dominates high.now low.now }
        ensures ok { OnOk result
            (static_added self.old
            (option_copied interface.entry) prefix low.now high.now ≡ Ok self.new) }
        ensures refused { IfErr result
            (IsStaticRefusal
            (static_added self.old (option_copied interface.entry) prefix low.now high.now)) }
        ensures err { OnErr result (self.new ≡ self.old) }
    {
        let interface = key_of(interface);
        if place_of(&self.entries, &interface, &prefix).is_some() {
            return Err(StaticFault::Exists);
        }
        if self.entries.len() == MOST_ENTRIES {
            return Err(StaticFault::Full);
        }
        let alloc = *self.entries.allocator();
        let low = KeptLabel::of(alloc, low)?;
        let high = KeptLabel::of(alloc, high)?;
        self.push(StaticEntry {
            interface,
            prefix,
            low,
            high,
        })?;
        Ok(())
    }

    fn push(&mut self, entry: StaticEntry) -> Result<(), OutOfMemory>
        requires absent { static_place self.old entry.interface entry.prefix ≡ None }
        requires few { length self.old < 256 }
        requires ordered { Dominates entry.high entry.low }
        ensures ok { OnOk result (self.new ≡ self.old ++ entry ∷ []) }
        ensures err { OnErr result (self.new ≡ self.old) }
    {
        let ranked = Ranked {
            bits: entry.prefix.bits(),
            place: self.entries.len(),
        };
        self.entries.push(entry)?;
        if rank_in(&mut self.order, ranked).is_err() {
            self.entries.pop();
            return Err(OutOfMemory);
        }
        Ok(())
    }

    #[tactic(auto, unfolding(crate::specs::Statics::static_deleted))]
    /// Removes the labels of an interface and a prefix. After a refusal nothing has changed.
    pub fn del(&mut self, interface: Option<&Name>, prefix: Prefix) -> Result<(), Unknown>
        ensures ok { OnOk result
            (static_deleted self.old (option_copied interface.entry) prefix ≡ Some self.new) }
        ensures unknown { OnErr result
            (static_deleted self.old (option_copied interface.entry) prefix ≡ None) }
        ensures err { OnErr result (self.new ≡ self.old) }
    {
        let interface = key_of(interface);
        let Some(place) = place_of(&self.entries, &interface, &prefix) else {
            return Err(Unknown);
        };
        self.entries.remove(place);
        forget(&mut self.order, place);
        Ok(())
    }

    #[tactic(auto, unfolding(crate::specs::Statics::find_static_of))]
    /// The low and the high label of traffic that comes over an interface from an address: among the entries of the interface,
    /// if it has any, else among the default ones, those of the longest prefix that holds the address.
    #[inline(always)]
    pub fn find(&self, interface: &Name, address: &Address) -> Option<(&Label, &Label)>
        ensures labels { option_map
            (λ r. (r.0.now, r.1.now)) result ≡ find_static_of self.now interface.now address.now }
        ensures ordered { IfSome result (λ r. Dominates r.1.now r.0.now) }
    {
        let place = find_in(&self.order, &self.entries, interface, address)?;
        let entry = &self.entries[place];
        Some((entry.low.label(), entry.high.label()))
    }

    /// The interface whose entries count for one: its own where it has an entry, else `None`, the default one.
    pub fn counting<'a>(&self, interface: &'a Name) -> Option<&'a Name>
        ensures { option_copied result ≡ counting self.now interface.now }
    {
        counting(&self.entries, interface)
    }

    /// How many entries there are.
    pub fn count(&self) -> usize
        ensures { result ≡ length self.now }
    {
        self.entries.len()
    }

    /// The entry at a place, in order of insertion: its interface, its prefix, its low and its high label.
    pub fn entry(&self, i: usize) -> (Option<&Name>, Prefix, &Label, &Label)
        requires { i < length self.now }
        ensures entry { slice_get self.now i ≡ Some
            (record {
              interface = option_copied result.0;
              prefix = result.1;
              low = result.2.now;
              high = result.3.now;
            }) }
        ensures ordered { Dominates result.3.now result.2.now }
    {
        let entry = &self.entries[i];
        (
            entry.interface.as_ref(),
            entry.prefix,
            entry.low.label(),
            entry.high.label(),
        )
    }

    /// A copy.
    pub fn copy(&self) -> Result<StaticMap, OutOfMemory>
        ensures { IfOk result (λ copy. copy ≡ self.now) }
    {
        Ok(StaticMap {
            entries: copies_of(*self.entries.allocator(), &self.entries)?,
            order: Vec::from_slice(*self.order.allocator(), &self.order)?,
        })
    }
}

fn same_interface(a: &Option<Name>, b: &Option<Name>) -> bool
    ensures { result ≡ same_domain a.now b.now }
{
    a == b
}

fn place_of(entries: &[StaticEntry], interface: &Option<Name>, prefix: &Prefix) -> Option<usize>
    ensures { result ≡ static_place entries.now interface.now prefix.now }
{
    entries.iter().position(|entry| same_interface(interface, &entry.interface)
        && prefix.same(&entry.prefix))
}

fn counting<'a>(entries: &[StaticEntry], interface: &'a Name) -> Option<&'a Name>
    ensures { option_copied result ≡ counting entries.now interface.now }
{
    if has_entries(entries, interface) {
        Some(interface)
    } else {
        None
    }
}

fn has_entries(entries: &[StaticEntry], interface: &Name) -> bool
    ensures { result ≡ list_any
        (λ e. same_domain (Some interface.now) e.interface) entries.now }
{
    entries
        .iter()
        .any(|entry| is_named(&entry.interface, Some(interface)))
}

/// The place of the entry that decides.
fn find_in(
    order: &[Ranked],
    entries: &[StaticEntry],
    interface: &Name,
    address: &Address,
) -> Option<usize>
    requires { IsRanked static_key static_bits entries.now order.now }
    ensures { MatchOption result
        (longest (λ e. e.prefix) address.now (candidates entries.now interface.now) ≡ None)
        (λ place. longest (λ e. e.prefix) address.now
        (candidates entries.now interface.now) ≡ slice_get entries.now place
        × (place < length entries.now)) }
{
    first_holding(order, entries, counting(entries, interface), address)
}

/// The place of the first entry in the order that is of the interface and whose prefix holds the address.
fn first_holding(
    order: &[Ranked],
    entries: &[StaticEntry],
    interface: Option<&Name>,
    address: &Address,
) -> Option<usize>
    requires tells { Tells (map (λ e. e.prefix.bits) entries.now) order.now }
    requires few { length entries.now ≤ 256 }
    ensures { result ≡ option_map (λ r. r.place)
        (find
        (λ (r : Ranked). passes_at
        (λ e. same_domain (option_copied interface.entry) e.interface
        && holds e.prefix address.now) entries.now r.place) order.now) }
{
    let mut rest = order;
    while let [ranked, others @ ..] = rest {
        if fits(&entries[ranked.place], interface, address) {
            return Some(ranked.place);
        }
        rest = others;
    }
    None
}

fn fits(entry: &StaticEntry, interface: Option<&Name>, address: &Address) -> bool
    ensures { result ≡
        (same_domain (option_copied interface.entry) entry.now.interface
        && holds entry.now.prefix address.now) }
{
    is_named(&entry.interface, interface) && entry.prefix.holds(address)
}

fn copies_of(alloc: Global, entries: &[StaticEntry]) -> Result<Vec<StaticEntry>, OutOfMemory>
    ensures { IfOk result (λ copies. copies.items ≡ entries.now) }
{
    let mut copies = Vec::new(alloc);
    for entry in entries {
        copies.push(StaticEntry {
            interface: key_of(entry.interface.as_ref()),
            prefix: entry.prefix,
            low: KeptLabel::of(alloc, entry.low.label())?,
            high: KeptLabel::of(alloc, entry.high.label())?,
        })?;
    }
    Ok(copies)
}
