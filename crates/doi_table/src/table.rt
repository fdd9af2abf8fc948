//! A node's definitions, in order of insertion.

ghost use Rattle.std.specs.Prelude.{◌≡◌, ℕ, ◌+◌, ◌<◌, ◌≤◌, [], List, length, slice_get, Some, None, IfOk, IfErr, OnOk, OnErr, IsSome};
ghost use Rattle.std.specs.List.{IsDistinct};
ghost use Rattle.std.specs.Map.{keys_of};
ghost use Rattle.std.specs.Option.{option_copied};
ghost use Rattle.doi_table.specs.Definition.{IsPlan};
ghost use Rattle.doi_table.specs.Table.{same_doi, definition_of, count_of, with_definition, without_definition, add_fault, MayAnswer};

use crate::definition::DoiDef;
use crate::fault::{DoiFault, Unknown};
use crate::plan::DoiPlan;
use indexmap::IndexMap;
use mls_label::{OutOfMemory, Proto};
use std::alloc::Global;
use std::marker::Model;

/// The most pairs of categories that a definition may have.
pub const MOST_PAIRS: usize = 1952;

/// The most definitions of a protocol.
pub const MOST_DOIS: usize = 64;

/// So many definitions are gone over, which costs less than a hash.
const FEW: usize = 8;

/// Definitions by protocol and DOI, in order of insertion.
#[derive(Drop)]
pub struct DoiTable {
    definitions: IndexMap<(Proto, u32), DoiDef>,
}

impl Model for DoiTable {
    ghost use Rattle.std.specs.Prelude.{List, ℕ};
    ghost use Rattle.mls_label.specs.declared.label.Proto.{Proto};
    ghost use Rattle.doi_table.specs.declared.plan.DoiPlan.{DoiPlan};

    ghost Value = { List ((Proto × ℕ) × DoiPlan) };

    ghost view = { λ t. t.definitions.entries };
}

impl DoiTable {
    /// The table without a definition.
    pub fn empty(alloc: Global) -> DoiTable
        ensures { result ≡ [] }
    {
        DoiTable {
            definitions: IndexMap::new(alloc),
        }
    }

    /// Defines a DOI, which goes last. After an error nothing has changed.
    pub fn add(&mut self, proto: Proto, doi: u32, plan: &DoiPlan) -> Result<(), DoiFault>
        requires doi { 0 < doi }
        requires is_plan { IsPlan plan.now }
        ensures ok { OnOk result (self.new ≡ with_definition self.old proto doi plan.now) }
        ensures allowed { OnOk result (add_fault self.old proto doi plan.now ≡ None) }
        ensures err { IfErr result
            (λ fault. MayAnswer fault (add_fault self.old proto doi plan.now)) }
        ensures kept { OnErr result (self.new ≡ self.old) }
    {
        if self.find(proto, doi).is_some() {
            return Err(DoiFault::Exists);
        }
        if plan.cats.as_slice().len() > MOST_PAIRS {
            return Err(DoiFault::TooManyPairs);
        }
        let def = DoiDef::of(*self.definitions.allocator(), plan)?;
        if self.dois_of(proto) >= MOST_DOIS {
            return Err(DoiFault::Full);
        }
        self.push(proto, doi, def)?;
        Ok(())
    }

    // Puts a definition last. After an error nothing has changed.
    fn push(&mut self, proto: Proto, doi: u32, def: DoiDef) -> Result<(), OutOfMemory>
        requires { definition_of self.old proto doi ≡ None }
        ensures ok { OnOk result (self.new ≡ with_definition self.old proto doi def) }
        ensures kept { OnErr result (self.new ≡ self.old) }
    {
        match self.definitions.insert((proto, doi), def) {
            Ok(_) => Ok(()),
            Err(_) => Err(OutOfMemory),
        }
    }

    // How many DOIs of the protocol are defined.
    fn dois_of(&self, proto: Proto) -> usize
        ensures { result ≡ count_of self.now proto }
    {
        self.definitions
            .keys()
            .filter(|name| name.0 == proto)
            .count()
    }

    /// Takes a definition out; the others keep their order.
    pub fn del(&mut self, proto: Proto, doi: u32) -> Result<(), Unknown>
        ensures ok { OnOk result (self.new ≡ without_definition self.old proto doi) }
        ensures defined { OnOk result (IsSome (definition_of self.old proto doi)) }
        ensures err { OnErr result (definition_of self.old proto doi ≡ None) }
        ensures kept { OnErr result (self.new ≡ self.old) }
    {
        match self.definitions.shift_remove(&(proto, doi)) {
            Some(_) => Ok(()),
            None => Err(Unknown),
        }
    }

    /// What a DOI is defined as, or `None` where the protocol doesn't define it.
    pub fn find(&self, proto: Proto, doi: u32) -> Option<&DoiDef>
        ensures { option_copied result ≡ definition_of self.now proto doi }
    {
        if self.definitions.len() <= FEW {
            first_named(&self.definitions, proto, doi)
        } else {
            self.definitions.get(&(proto, doi))
        }
    }

    /// How many definitions there are.
    pub fn count(&self) -> usize
        ensures count { result ≡ length self.now }
        ensures once { IsDistinct same_doi (keys_of self.now) }
    {
        self.definitions.len()
    }

    /// The definition at a place, in order of insertion.
    pub fn entry(&self, i: usize) -> (Proto, u32, &DoiDef)
        requires { i < length self.now }
        ensures { slice_get self.now i ≡ Some ((result.0, result.1), result.2.now) }
    {
        match self.definitions.get_index(i) {
            Some((name, def)) => (name.0, name.1, def),
            None => unreachable!(),
        }
    }

    /// An equal table.
    pub fn copy(&self) -> Result<DoiTable, OutOfMemory>
        ensures { IfOk result (λ copy. copy ≡ self.now) }
    {
        let mut copy = DoiTable::empty(*self.definitions.allocator());
        for i in 0..self.count() {
            let (proto, doi, def) = self.entry(i);
            copy.push(proto, doi, def.copy()?)?;
        }
        Ok(copy)
    }
}

// What a DOI is defined as, found from the front.
fn first_named(
    definitions: &IndexMap<(Proto, u32), DoiDef>,
    proto: Proto,
    doi: u32,
) -> Option<&DoiDef>
    ensures { option_copied result ≡ definition_of definitions.now.entries proto doi }
{
    for place in 0..definitions.len() {
        let (name, definition) = entry_at(definitions, place);
        if is_named(name, proto, doi) {
            return Some(definition);
        }
    }
    None
}

fn entry_at(definitions: &IndexMap<(Proto, u32), DoiDef>, place: usize) -> (&(Proto, u32), &DoiDef)
    requires { place < length definitions.now.entries }
    ensures { slice_get definitions.now.entries place ≡ Some (result.0.now, result.1.now) }
{
    match definitions.get_index(place) {
        Some(entry) => entry,
        None => unreachable!(),
    }
}

fn is_named(name: &(Proto, u32), proto: Proto, doi: u32) -> bool
    ensures { result ≡ same_doi (proto, doi) name.now }
{
    proto == name.0 && doi == name.1
}
