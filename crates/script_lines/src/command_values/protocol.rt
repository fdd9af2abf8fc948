//! Protocols that a command puts into a map.

ghost use Rattle.std.specs.Prelude.{◌≡◌, ◌++◌, IsTrue, OnOk, OnErr};
ghost use Rattle.domain_map.specs.declared.protocol.Protocol.TheVariants.{Unlbl, Cipso, Calipso};
ghost use Rattle.script_lines.specs.command_values.MapProtocol.{is_map_protocol, map_protocol_of_text, map_protocol_text, protocol_by_name};
ghost use Rattle.script_lines.specs.command_values.inside.Extends.{Extends};

use crate::command_values::doi::{Doi, read_doi};
use crate::command_values::parts::{around, is_word};
use domain_map::Protocol;
use mls_label::{OutOfMemory, write_decimal};
use std::marker::Model;

/// A protocol of a map whose DOI, where it has one, isn't 0. Contracts see the protocol.
#[derive(Clone, Copy, Debug, PartialEq, Eq)]
pub struct MapProtocol {
    protocol: Protocol,
}

impl Model for MapProtocol {
    ghost use Rattle.std.specs.Prelude.{IsTrue};
    ghost use Rattle.domain_map.specs.declared.protocol.Protocol.{Protocol};

    ghost Value = { Protocol };

    ghost use Rattle.script_lines.specs.command_values.MapProtocol.{is_map_protocol};

    ghost view = { λ m. m.protocol };

    ghost invariant = { λ m. IsTrue (is_map_protocol m.protocol) };

    ghost inverse = { λ p. record { protocol = p } };
}

impl MapProtocol {
    /// No label.
    pub fn unlbl() -> MapProtocol
        ensures { result ≡ Unlbl }
    {
        MapProtocol {
            protocol: Protocol::Unlbl,
        }
    }

    /// CIPSO under a DOI.
    pub fn cipso(doi: Doi) -> MapProtocol
        ensures { result ≡ Cipso doi }
    {
        MapProtocol {
            protocol: Protocol::Cipso { doi: doi.get() },
        }
    }

    /// CALIPSO under a DOI.
    pub fn calipso(doi: Doi) -> MapProtocol
        ensures { result ≡ Calipso doi }
    {
        MapProtocol {
            protocol: Protocol::Calipso { doi: doi.get() },
        }
    }

    /// The protocol.
    pub fn get(&self) -> Protocol
        ensures value { result ≡ self.now }
        ensures doi { IsTrue (is_map_protocol self.now) }
    {
        self.protocol
    }
}

/// Reads a whole text as a protocol: `unlbl`, or `cipsov4`, `cipso` or `calipso` with a comma and a DOI.
pub fn read_map_protocol(text: &[u8]) -> Option<MapProtocol>
    ensures { result ≡ map_protocol_of_text text.now }
{
    if is_word(text, "unlbl") {
        return Some(MapProtocol::unlbl());
    }
    let (name, doi) = around(text, b',');
    protocol_by_name(name, doi)
}

fn protocol_by_name(name: &[u8], doi: &[u8]) -> Option<MapProtocol>
    ensures { result ≡ protocol_by_name name.now doi.now }
{
    if is_word(name, "cipsov4") || is_word(name, "cipso") {
        Some(MapProtocol::cipso(read_doi(doi)?))
    } else if is_word(name, "calipso") {
        Some(MapProtocol::calipso(read_doi(doi)?))
    } else {
        None
    }
}

/// Appends the protocol's one written form. After an error `out` is as it was.
pub fn write_map_protocol(protocol: &MapProtocol, out: &mut Vec<u8>) -> Result<(), OutOfMemory>
    ensures ok { OnOk result (out.new.items ≡ out.old.items ++ map_protocol_text protocol.now) }
    ensures err { OnErr result (out.new.items ≡ out.old.items) }
{
    let before = out.len();
    let written = append_protocol(protocol.protocol, out);
    if written.is_err() {
        out.truncate(before);
    }
    written
}

/// Appends a protocol, or a part of it where memory runs out.
fn append_protocol(protocol: Protocol, out: &mut Vec<u8>) -> Result<(), OutOfMemory>
    ensures ok { OnOk result (out.new.items ≡ out.old.items ++ map_protocol_text protocol) }
    ensures err { OnErr result (Extends out.old.items out.new.items) }
{
    match protocol {
        Protocol::Unlbl => {
            out.extend_from_slice(b"unlbl")?;
        }
        Protocol::Cipso { doi } => {
            out.extend_from_slice(b"cipsov4,")?;
            write_decimal(u64::from(doi), out)?;
        }
        Protocol::Calipso { doi } => {
            out.extend_from_slice(b"calipso,")?;
            write_decimal(u64::from(doi), out)?;
        }
    }
    Ok(())
}
