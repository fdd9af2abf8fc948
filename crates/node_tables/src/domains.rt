//! Entries of the map by commands.

ghost use Rattle.std.specs.Prelude.{◌≡◌, ◌∷◌, ◌++◌, [], IfOk, OnOk, option_copied};
ghost use Rattle.node_tables.specs.Listing.{domain_line, domain_lines};
ghost use Rattle.node_tables.specs.Change.{is_defined, entry_added, entry_deleted};
ghost use Rattle.node_tables.specs.inside.Turns.{Turns};
ghost use Rattle.node_tables.specs.inside.Kept.{HasNoZero, NamesNoZero};

use crate::key::key_of;
use crate::list_text::ListText;
use crate::reply::Refusal;
use crate::stop::Stop;
use doi_table::DoiTable;
use domain_map::{DomainMap, MapFault, Name, Prefix, Protocol};
use mls_label::{OutOfMemory, Proto};
use script_lines::{Command, Doi, MapProtocol};
use std::alloc::Global;

/// Adds an entry, or an address to one, whose protocol has no DOI or one that is defined.
pub fn add_entry(
    map: &mut DomainMap,
    dois: &DoiTable,
    domain: &Option<Name>,
    prefix: Option<Prefix>,
    protocol: Protocol,
) -> Result<(), Stop>
    ensures { Turns
        (entry_added dois.now map.old domain.now prefix protocol) map.old map.new result }
{
    if !is_defined(dois, protocol) {
        return Err(Stop::Refused(Refusal::DoiUnknown));
    }
    match map.add(domain.as_ref(), prefix, protocol) {
        Ok(()) => Ok(()),
        Err(MapFault::Exists) => Err(Stop::Refused(Refusal::MapExists)),
        Err(MapFault::Plain) => Err(Stop::Refused(Refusal::MapPlain)),
        Err(MapFault::HasAddresses) => Err(Stop::Refused(Refusal::MapHasAddresses)),
        Err(MapFault::Full) => Err(Stop::Refused(Refusal::TableFull)),
        Err(MapFault::OutOfMemory) => Err(Stop::OutOfMemory),
    }
}

fn is_defined(dois: &DoiTable, protocol: Protocol) -> bool
    ensures { result ≡ is_defined dois.now protocol }
{
    match protocol {
        Protocol::Unlbl => true,
        Protocol::Cipso { doi } => dois.find(Proto::Cipso, doi).is_some(),
        Protocol::Calipso { doi } => dois.find(Proto::Calipso, doi).is_some(),
    }
}

/// Takes out an entry, or one address of it.
pub fn del_entry(
    map: &mut DomainMap,
    domain: &Option<Name>,
    prefix: Option<Prefix>,
) -> Result<(), Stop>
    ensures { Turns (entry_deleted map.old domain.now prefix) map.old map.new result }
{
    match map.del(domain.as_ref(), prefix) {
        Ok(()) => Ok(()),
        Err(_) => Err(Stop::Refused(Refusal::MapUnknown)),
    }
}

/// The lines of all entries.
pub fn list_entries(alloc: Global, map: &DomainMap) -> Result<ListText, OutOfMemory>
    requires { NamesNoZero map.now }
    ensures { IfOk result (λ lines. lines ≡ domain_lines map.now) }
{
    let mut lines = ListText::empty(alloc);
    for i in 0..map.count() {
        let (domain, prefix, protocol) = map.entry(i);
        push_entry(&mut lines, domain, prefix, protocol)?;
    }
    Ok(lines)
}

fn push_entry(
    lines: &mut ListText,
    domain: Option<&Name>,
    prefix: Option<Prefix>,
    protocol: Protocol,
) -> Result<(), OutOfMemory>
    requires { HasNoZero protocol }
    ensures { OnOk result
        (lines.new ≡ lines.old ++ domain_line (option_copied domain.entry, prefix, protocol) ∷ []) }
{
    let command = Command::MapAdd {
        domain: key_of(domain),
        prefix,
        protocol: map_protocol(protocol),
    };
    lines.push_command(command)
}

fn map_protocol(protocol: Protocol) -> MapProtocol
    requires { HasNoZero protocol }
    ensures { result ≡ protocol }
{
    match protocol {
        Protocol::Unlbl => MapProtocol::unlbl(),
        Protocol::Cipso { doi } => MapProtocol::cipso(Doi::of(doi)),
        Protocol::Calipso { doi } => MapProtocol::calipso(Doi::of(doi)),
    }
}
