//! The tables of one node.

ghost use Rattle.std.specs.Prelude.{◌≡◌, ℕ, List, IfOk, IfSome, IsOk, OnOk, OnErr, Some, option_copied};
ghost use Rattle.mls_label.specs.Label.{Dominates};
ghost use Rattle.mls_label.specs.declared.label.Proto.TheVariants.{Cipso};
ghost use Rattle.doi_table.specs.Definition.{IsPlan};
ghost use Rattle.script_lines.specs.command_values.Tags.{AreTags};
ghost use Rattle.script_lines.specs.declared.command.Command.TheVariants.{MapAdd, MapDel, MapList, UnlblAdd, UnlblDel, UnlblList, ReceiverAdd, ReceiverDel, RangeAdd, RangeDel, PairAdd, PairDel, MgmtVersion, MgmtProtocols};
ghost use Rattle.node_tables.specs.declared.reply.Reply.TheVariants.{Listed};
ghost use Rattle.node_tables.specs.Tables.{fresh, find_receiver_of, find_range_of, six_of, four_of};
ghost use Rattle.node_tables.specs.Coherence.{IsCoherent};
ghost use Rattle.node_tables.specs.Effect.{becomes, pass_plan, trans_plan, definition_effect, deletion_effect, listing_effect, effect_of, applied, reply_of};
ghost use Rattle.node_tables.specs.inside.Lists.{is_listing};
ghost use Rattle.node_tables.specs.inside.Turns.{Answers, Follows};
ghost use Rattle.node_tables.specs.inside.Kept.{IsGiven};

use crate::definitions::{
    define, forget, list_definitions, pass_plan, push_definition, trans_plan,
};
use crate::domains::{add_entry, del_entry, list_entries};
use crate::labels::{add_labels, del_labels, list_labels};
use crate::list_text::ListText;
use crate::pairs::AddressPairs;
use crate::ranges::{add_range, copy_ranges, del_range, find_range};
use crate::receiver::Receiver;
use crate::receivers::{KeptReceiver, add_receiver, copy_receivers, del_receiver, find_receiver};
use crate::reply::{Refusal, Reply};
use crate::stop::Stop;
use doi_table::{DoiPlan, DoiTable};
use domain_map::{Address, DomainMap, Name, Prefix, Protocol, StaticMap};
use indexmap::IndexMap;
use mls_label::{OutOfMemory, Proto, Tag};
use mls_range::{KeptRange, Range};
use script_lines::{CategoryPairs, Command, Doi, LevelPairs};
use std::alloc::Global;
use std::marker::Model;

/// The tables of one node, as its commands have set them. Each DOI that an entry of its map names is defined, and no DOI that is
/// defined is 0: the type keeps that.
#[derive(Drop)]
pub struct Tables {
    dois: DoiTable,
    map: DomainMap,
    statics: StaticMap,
    accepts: bool,
    receivers: IndexMap<Address, KeptReceiver>,
    ranges: IndexMap<Option<Name>, KeptRange>,
    pairs: AddressPairs,
}

impl Model for Tables {
    ghost use Rattle.node_tables.specs.Tables.{TableState};

    ghost Value = { TableState };

    ghost use Rattle.node_tables.specs.inside.Kept.{IsKept};

    ghost view = { λ t. record {
      definitions = t.dois;
      domains = t.map;
      statics = t.statics;
      accepts = t.accepts;
      receivers = t.receivers.entries;
      ranges = t.ranges.entries;
      pairs = t.pairs;
    } };

    ghost invariant = { λ t. IsKept t.dois t.map };
}

impl Tables {
    /// The tables of a node to which no command was given.
    pub(crate) fn fresh(alloc: Global) -> Tables
        ensures { result ≡ fresh }
    {
        Tables {
            dois: DoiTable::empty(alloc),
            map: DomainMap::empty(alloc),
            statics: StaticMap::empty(alloc),
            accepts: false,
            receivers: IndexMap::new(alloc),
            ranges: IndexMap::new(alloc),
            pairs: AddressPairs::empty(alloc),
        }
    }

    /// Equal tables.
    pub(crate) fn copy(&self) -> Result<Tables, OutOfMemory>
        ensures { IfOk result (λ copy. copy ≡ self.now) }
    {
        let dois = self.dois.copy()?;
        let map = self.map.copy()?;
        let statics = self.statics.copy()?;
        let receivers = copy_receivers(&self.receivers)?;
        let ranges = copy_ranges(&self.ranges)?;
        let pairs = self.pairs.copy()?;
        Ok(Tables {
            dois,
            map,
            statics,
            accepts: self.accepts,
            receivers,
            ranges,
            pairs,
        })
    }

    /// The definitions of DOIs.
    pub fn dois(&self) -> &DoiTable
        ensures value { result.now ≡ self.now.definitions }
        ensures coherent { IsCoherent self.now.definitions self.now.domains }
    {
        &self.dois
    }

    /// The map from domains and addresses to protocols.
    pub fn map(&self) -> &DomainMap
        ensures value { result.now ≡ self.now.domains }
        ensures coherent { IsCoherent self.now.definitions self.now.domains }
    {
        &self.map
    }

    /// The labels of unlabelled packets.
    pub fn statics(&self) -> &StaticMap
        ensures { result.now ≡ self.now.statics }
    {
        &self.statics
    }

    /// Whether unlabelled packets are accepted.
    pub fn accepts(&self) -> bool
        ensures { result ≡ self.now.accepts }
    {
        self.accepts
    }

    /// The receiver at an address.
    #[inline(always)]
    pub fn find_receiver(&self, address: &Address) -> Option<&Receiver>
        ensures value { option_copied result ≡ find_receiver_of self.now.receivers address.now }
        ensures ordered { IfSome result
            (λ receiver. Dominates receiver.now.level receiver.now.low) }
    {
        Some(find_receiver(&self.receivers, address)?.receiver())
    }

    /// The range of an interface, or else the default one.
    #[inline(always)]
    pub fn find_range(&self, interface: &Name) -> Option<&Range>
        ensures { option_copied result ≡ find_range_of self.now.ranges interface.now }
    {
        Some(find_range(&self.ranges, interface)?.range())
    }

    /// The IPv6 address that stands for an IPv4 one.
    pub fn find_six(&self, four: [u8; 4]) -> Option<[u8; 16]>
        ensures { result ≡ six_of self.now.pairs four }
    {
        self.pairs.find_six(four)
    }

    /// The IPv4 address that stands for an IPv6 one.
    pub fn find_four(&self, six: [u8; 16]) -> Option<[u8; 4]>
        ensures { result ≡ four_of self.now.pairs six }
    {
        self.pairs.find_four(six)
    }

    fn allocator(&self) -> Global {
        *self.receivers.allocator()
    }

    #[tactic(auto, unfolding(crate::specs::Effect::effect_of))]
    /// Carries out a command. After an error nothing has changed.
    pub(crate) fn obey(&mut self, command: &Command) -> Result<Reply, OutOfMemory>
        ensures { Follows (effect_of self.old command.now) self.old self.new result }
    {
        match command {
            Command::CipsoAddPass { doi, tags } => {
                self.define_pass(Proto::Cipso, *doi, tags.as_slice())
            }
            Command::CipsoAddTrans {
                doi,
                tags,
                levels,
                categories,
            } => { self.define_trans(Proto::Cipso, *doi, tags.as_slice(), levels, categories) }
            Command::CalipsoAddPass { doi } => self.define_pass(Proto::Calipso, *doi, &[]),
            Command::CalipsoAddTrans {
                doi,
                levels,
                categories,
            } => { self.define_trans(Proto::Calipso, *doi, &[], levels, categories) }
            Command::CipsoDel { doi } => self.forget(Proto::Cipso, *doi),
            Command::CalipsoDel { doi } => self.forget(Proto::Calipso, *doi),
            Command::CipsoList { doi } => self.list_definitions(Proto::Cipso, doi),
            Command::CalipsoList { doi } => self.list_definitions(Proto::Calipso, doi),
            Command::MapAdd {
                domain,
                prefix,
                protocol,
            } => { self.add_entry(domain, *prefix, protocol.get()) }
            Command::MapDel { domain, prefix } => self.del_entry(domain, *prefix),
            Command::MapList => self.list_entries(),
            Command::AcceptOn => self.accept(true),
            Command::AcceptOff => self.accept(false),
            Command::UnlblAdd {
                interface,
                prefix,
                range,
            } => { self.add_labels(interface, *prefix, range.range()) }
            Command::UnlblDel { interface, prefix } => self.del_labels(interface, *prefix),
            Command::UnlblList => self.list_labels(),
            Command::ReceiverAdd {
                address,
                domain,
                range,
            } => { self.add_receiver(address, domain, range.range()) }
            Command::ReceiverDel { address } => self.del_receiver(address),
            Command::RangeAdd { interface, range } => self.add_range(interface, range.range()),
            Command::RangeDel { interface } => self.del_range(interface),
            Command::PairAdd { four, six } => self.add_pair(*four, *six),
            Command::PairDel { four } => self.del_pair(*four),
            Command::MgmtVersion => self.list_version(),
            Command::MgmtProtocols => self.list_protocols(),
        }
    }

    /// Carries out a command and gives no reply. The lines of a listing aren't made, so that one takes no memory. After an error nothing
    /// has changed.
    pub(crate) fn change(&mut self, command: &Command) -> Result<(), OutOfMemory>
        ensures ok { OnOk result (self.new ≡ applied self.old command.now) }
        ensures listing { (lines : List (List ℕ))
            → reply_of self.old command.now ≡ Listed lines → IsOk result }
        ensures err { OnErr result (self.new ≡ self.old) }
    {
        if is_listing(command) {
            return Ok(());
        }
        let _reply = self.obey(command)?;
        Ok(())
    }

    // The definitions of DOIs.

    fn define(&mut self, proto: Proto, doi: Doi, plan: &DoiPlan) -> Result<Reply, OutOfMemory>
        requires plan { IsPlan plan.now }
        requires given { IsGiven (proto, doi) plan.now }
        ensures { Follows (definition_effect self.old proto doi plan.now) self.old self.new result }
    {
        replied(define(&mut self.dois, proto, doi, plan))
    }

    fn define_pass(&mut self, proto: Proto, doi: Doi, tags: &[Tag]) -> Result<Reply, OutOfMemory>
        requires { proto ≡ Cipso → AreTags tags.now }
        ensures { Follows (definition_effect self.old proto doi (pass_plan tags.now))
            self.old self.new result }
    {
        let plan = pass_plan(self.allocator(), tags)?;
        self.define(proto, doi, &plan)
    }

    fn define_trans(
        &mut self,
        proto: Proto,
        doi: Doi,
        tags: &[Tag],
        levels: &LevelPairs,
        categories: &Option<CategoryPairs>,
    ) -> Result<Reply, OutOfMemory>
        requires { proto ≡ Cipso → AreTags tags.now }
        ensures { Follows
            (definition_effect self.old proto doi (trans_plan tags.now levels.now categories.now))
            self.old self.new result }
    {
        let plan = trans_plan(self.allocator(), tags, levels, categories)?;
        self.define(proto, doi, &plan)
    }

    fn forget(&mut self, proto: Proto, doi: Doi) -> Result<Reply, OutOfMemory>
        ensures { Follows (deletion_effect self.old proto doi) self.old self.new result }
    {
        replied(forget(&mut self.dois, &self.map, proto, doi))
    }

    fn list_definitions(&self, proto: Proto, doi: &Option<Doi>) -> Result<Reply, OutOfMemory>
        ensures { Follows (listing_effect self.now proto doi.now) self.now self.now result }
    {
        match doi {
            Some(doi) => self.list_definition(proto, *doi),
            None => Ok(Reply::Listed(list_definitions(self.allocator(), &self.dois, proto)?)),
        }
    }

    fn list_definition(&self, proto: Proto, doi: Doi) -> Result<Reply, OutOfMemory>
        ensures { Follows (listing_effect self.now proto (Some doi)) self.now self.now result }
    {
        let alloc = self.allocator();
        let doi = doi.get();
        let Some(def) = self.dois.find(proto, doi) else {
            return Ok(Reply::Refused(Refusal::DoiUnknown));
        };
        let mut lines = ListText::empty(alloc);
        push_definition(&mut lines, alloc, proto, doi, def)?;
        Ok(Reply::Listed(lines))
    }

    // The map.

    #[tactic(auto, unfolding(crate::specs::Effect::effect_of))]
    fn add_entry(
        &mut self,
        domain: &Option<Name>,
        prefix: Option<Prefix>,
        protocol: Protocol,
    ) -> Result<Reply, OutOfMemory>
        ensures { Follows (effect_of self.old (MapAdd domain.now prefix protocol))
            self.old self.new result }
    {
        replied(add_entry(&mut self.map, &self.dois, domain, prefix, protocol))
    }

    #[tactic(auto, unfolding(crate::specs::Effect::effect_of))]
    fn del_entry(
        &mut self,
        domain: &Option<Name>,
        prefix: Option<Prefix>,
    ) -> Result<Reply, OutOfMemory>
        ensures { Follows (effect_of self.old (MapDel domain.now prefix)) self.old self.new result }
    {
        replied(del_entry(&mut self.map, domain, prefix))
    }

    #[tactic(auto, unfolding(crate::specs::Effect::effect_of))]
    fn list_entries(&self) -> Result<Reply, OutOfMemory>
        ensures { Follows (effect_of self.now MapList) self.now self.now result }
    {
        Ok(Reply::Listed(list_entries(self.allocator(), &self.map)?))
    }

    // The labels of unlabelled packets.

    fn accept(&mut self, accepts: bool) -> Result<Reply, OutOfMemory>
        ensures { Follows
            (becomes (record self.old { accepts = accepts })) self.old self.new result }
    {
        self.accepts = accepts;
        Ok(Reply::Done)
    }

    #[tactic(auto, unfolding(crate::specs::Effect::effect_of))]
    fn add_labels(
        &mut self,
        interface: &Option<Name>,
        prefix: Prefix,
        range: &Range,
    ) -> Result<Reply, OutOfMemory>
        ensures { Follows (effect_of self.old (UnlblAdd interface.now prefix range.now))
            self.old self.new result }
    {
        replied(add_labels(&mut self.statics, interface, prefix, range))
    }

    #[tactic(auto, unfolding(crate::specs::Effect::effect_of))]
    fn del_labels(&mut self, interface: &Option<Name>, prefix: Prefix) -> Result<Reply, OutOfMemory>
        ensures { Follows
            (effect_of self.old (UnlblDel interface.now prefix)) self.old self.new result }
    {
        replied(del_labels(&mut self.statics, interface, prefix))
    }

    #[tactic(auto, unfolding(crate::specs::Effect::effect_of))]
    fn list_labels(&self) -> Result<Reply, OutOfMemory>
        ensures { Follows (effect_of self.now UnlblList) self.now self.now result }
    {
        let lines = list_labels(self.allocator(), self.accepts, &self.statics)?;
        Ok(Reply::Listed(lines))
    }

    // Receivers, ranges and pairs.

    #[tactic(auto, unfolding(crate::specs::Effect::effect_of))]
    fn add_receiver(
        &mut self,
        address: &Address,
        domain: &Name,
        range: &Range,
    ) -> Result<Reply, OutOfMemory>
        ensures { Follows (effect_of self.old (ReceiverAdd address.now domain.now range.now))
            self.old self.new result }
    {
        replied(add_receiver(&mut self.receivers, address, domain, range))
    }

    #[tactic(auto, unfolding(crate::specs::Effect::effect_of))]
    fn del_receiver(&mut self, address: &Address) -> Result<Reply, OutOfMemory>
        ensures { Follows (effect_of self.old (ReceiverDel address.now)) self.old self.new result }
    {
        replied(del_receiver(&mut self.receivers, address))
    }

    #[tactic(auto, unfolding(crate::specs::Effect::effect_of))]
    fn add_range(&mut self, interface: &Option<Name>, range: &Range) -> Result<Reply, OutOfMemory>
        ensures { Follows (effect_of self.old (RangeAdd interface.now range.now))
            self.old self.new result }
    {
        replied(add_range(&mut self.ranges, interface, range))
    }

    #[tactic(auto, unfolding(crate::specs::Effect::effect_of))]
    fn del_range(&mut self, interface: &Option<Name>) -> Result<Reply, OutOfMemory>
        ensures { Follows (effect_of self.old (RangeDel interface.now)) self.old self.new result }
    {
        replied(del_range(&mut self.ranges, interface))
    }

    #[tactic(auto, unfolding(crate::specs::Effect::effect_of))]
    fn add_pair(&mut self, four: [u8; 4], six: [u8; 16]) -> Result<Reply, OutOfMemory>
        ensures { Follows (effect_of self.old (PairAdd four six)) self.old self.new result }
    {
        replied(self.pairs.add(four, six))
    }

    #[tactic(auto, unfolding(crate::specs::Effect::effect_of))]
    fn del_pair(&mut self, four: [u8; 4]) -> Result<Reply, OutOfMemory>
        ensures { Follows (effect_of self.old (PairDel four)) self.old self.new result }
    {
        replied(self.pairs.del(four))
    }

    // What the program knows.

    #[tactic(auto, unfolding(crate::specs::Effect::effect_of))]
    fn list_version(&self) -> Result<Reply, OutOfMemory>
        ensures { Follows (effect_of self.now MgmtVersion) self.now self.now result }
    {
        let mut lines = ListText::empty(self.allocator());
        lines.push(b"version 1")?;
        Ok(Reply::Listed(lines))
    }

    #[tactic(auto, unfolding(crate::specs::Effect::effect_of))]
    fn list_protocols(&self) -> Result<Reply, OutOfMemory>
        ensures { Follows (effect_of self.now MgmtProtocols) self.now self.now result }
    {
        let mut lines = ListText::empty(self.allocator());
        lines.push(b"unlbl")?;
        lines.push(b"cipsov4")?;
        lines.push(b"calipso")?;
        Ok(Reply::Listed(lines))
    }
}

/// The reply to a change.
fn replied(turned: Result<(), Stop>) -> Result<Reply, OutOfMemory>
    ensures { Answers turned result }
{
    match turned {
        Ok(()) => Ok(Reply::Done),
        Err(Stop::Refused(why)) => Ok(Reply::Refused(why)),
        Err(Stop::OutOfMemory) => Err(OutOfMemory),
    }
}

/// Whether a command lists lines, and so changes nothing.
fn is_listing(command: &Command) -> bool
    ensures { result ≡ is_listing command.now }
{
    matches!(
        command,
        Command::CipsoList { .. }
            | Command::CalipsoList { .. }
            | Command::MapList
            | Command::UnlblList
            | Command::MgmtVersion
            | Command::MgmtProtocols
    )
}
