//! A command's parameters, lent.

ghost use Rattle.std.specs.Prelude.{◌≡◌, codes, IfOk, option_copied, option_map, if◌then◌else◌};
ghost use Rattle.script_lines.specs.Form.{key_text};
ghost use Rattle.script_lines.specs.Fields.{is_given};
ghost use Rattle.script_lines.specs.Value.{is_default, key_by};
ghost use Rattle.script_lines.specs.Command.{said_of};

use crate::command::Command;
use crate::command_values::{CategoryPairs, Doi, LevelPairs, MapProtocol, Tags};
use crate::copies::{copied_domain, copied_list, copied_name, copied_range, copied_tags};
use crate::fields::Fields;
use crate::parameter::Parameter;
use domain_map::{Address, Name, Prefix};
use mls_label::OutOfMemory;
use mls_range::KeptRange;
use std::alloc::Global;
use std::marker::Model;

/// The parameters of a command, as `Fields` has them.
#[derive(Drop)]
pub(crate) struct Shown<'a> {
    pub doi: Option<Doi>,
    pub tags: Option<&'a Tags>,
    pub levels: Option<&'a LevelPairs>,
    pub categories: Option<&'a CategoryPairs>,
    pub domain: Option<Option<&'a Name>>,
    pub interface: Option<Option<&'a Name>>,
    pub prefix: Option<Prefix>,
    pub protocol: Option<MapProtocol>,
    pub label: Option<&'a KeptRange>,
    pub address: Option<Address>,
    pub home: Option<&'a Name>,
    pub level: Option<&'a KeptRange>,
    pub range: Option<&'a KeptRange>,
    pub four: Option<[u8; 4]>,
    pub six: Option<[u8; 16]>,
}

impl<'a> Model for Shown<'a> {
    ghost use Rattle.script_lines.specs.declared.fields.Fields.{Fields};

    ghost Value = { Fields };

    ghost use Rattle.script_lines.specs.inside.Shown.{seen};

    ghost view = { seen };
}

impl<'a> Shown<'a> {
    /// The parameters of a command.
    pub fn of(command: &'a Command) -> Shown<'a>
        ensures { result ≡ (said_of command.now).fields }
    {
        Shown {
            doi: command.doi(),
            tags: command.tags(),
            levels: command.levels(),
            categories: command.categories(),
            domain: command.domain(),
            interface: command.interface(),
            prefix: command.prefix(),
            protocol: command.protocol(),
            label: command.label(),
            address: command.address(),
            home: command.home(),
            level: command.level(),
            range: command.range(),
            four: command.four(),
            six: command.six(),
        }
    }

    /// Whether the parameter is given.
    pub fn has(&self, parameter: Parameter) -> bool
        ensures { result ≡ is_given parameter self.now }
    {
        match parameter {
            Parameter::Doi => self.doi.is_some(),
            Parameter::Tags => self.tags.is_some(),
            Parameter::Levels => self.levels.is_some(),
            Parameter::Categories => self.categories.is_some(),
            Parameter::Domain => self.domain.is_some(),
            Parameter::Interface => self.interface.is_some(),
            Parameter::Prefix => self.prefix.is_some(),
            Parameter::Protocol => self.protocol.is_some(),
            Parameter::Label => self.label.is_some(),
            Parameter::Address => self.address.is_some(),
            Parameter::Home => self.home.is_some(),
            Parameter::Level => self.level.is_some(),
            Parameter::Range => self.range.is_some(),
            Parameter::Four => self.four.is_some(),
            Parameter::Six => self.six.is_some(),
            Parameter::ReadingLevels | Parameter::ReadingCategories => false,
        }
    }

    /// How the parameter's word begins.
    pub fn key(&self, parameter: Parameter) -> &'static str
        ensures { result.now ≡ key_by parameter self.now }
    {
        match parameter {
            Parameter::Domain => key_of(self.domain, parameter),
            Parameter::Interface => key_of(self.interface, parameter),
            _ => parameter.key(),
        }
    }

    /// Copies.
    pub fn copied(&self, alloc: Global) -> Result<Fields, OutOfMemory>
        ensures { IfOk result (λ fields. fields ≡ self.now) }
    {
        Ok(Fields {
            doi: self.doi,
            tags: copied_tags(self.tags)?,
            levels: copied_list(self.levels)?,
            categories: copied_list(self.categories)?,
            domain: copied_domain(self.domain),
            interface: copied_domain(self.interface),
            prefix: self.prefix,
            protocol: self.protocol,
            label: copied_range(alloc, self.label)?,
            address: self.address,
            home: copied_name(self.home),
            level: copied_range(alloc, self.level)?,
            range: copied_range(alloc, self.range)?,
            four: self.four,
            six: self.six,
            reading_levels: None,
            reading_categories: None,
        })
    }
}

/// The word `default` where there is no name, else how the parameter's words begin.
fn key_of(domain: Option<Option<&Name>>, parameter: Parameter) -> &'static str
    ensures { result.now ≡
        (if is_default
        (option_map option_copied domain.entry) then codes "default" else key_text parameter) }
{
    match domain {
        Some(None) => "default",
        _ => parameter.key(),
    }
}
