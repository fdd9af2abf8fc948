//! The values of a line's parameters.

ghost use Rattle.std.specs.Prelude.{◌≡◌, None, Some, IfOk, OnOk, if◌then◌else◌};
ghost use Rattle.mls_range.specs.Computed.{range_of_text};
ghost use Rattle.script_lines.specs.Form.{with_translations};
ghost use Rattle.script_lines.specs.Fields.{no_fields, is_given, fields_with, named_or_default, with_value};

use crate::command_values::{
    CategoryPairs, CommaList, Doi, LevelPairs, MapProtocol, ReadingCategories, ReadingLevels, Tags,
    is_word, read_doi, read_four, read_map_protocol, read_receiver_range, read_six,
    read_static_range,
};
use crate::parameter::Parameter;
use domain_map::{Address, Name, Prefix, read_address, read_name, read_prefix};
use mls_label::OutOfMemory;
use mls_range::{KeptRange, Range, read_range_into};
use std::alloc::Global;

/// What a line gives: for each parameter its value, where it came.
#[derive(Drop)]
pub struct Fields {
    pub doi: Option<Doi>,
    pub tags: Option<Tags>,
    pub levels: Option<LevelPairs>,
    pub categories: Option<CategoryPairs>,
    /// Without a name it is the default domain.
    pub domain: Option<Option<Name>>,
    /// Without a name it is the default interface.
    pub interface: Option<Option<Name>>,
    pub prefix: Option<Prefix>,
    pub protocol: Option<MapProtocol>,
    pub label: Option<KeptRange>,
    pub address: Option<Address>,
    pub home: Option<Name>,
    pub level: Option<KeptRange>,
    pub range: Option<KeptRange>,
    pub four: Option<[u8; 4]>,
    pub six: Option<[u8; 16]>,
    pub reading_levels: Option<ReadingLevels>,
    pub reading_categories: Option<ReadingCategories>,
}

impl Fields {
    /// No parameter came.
    pub(crate) fn none() -> Fields
        ensures { result ≡ no_fields }
    {
        Fields {
            doi: None,
            tags: None,
            levels: None,
            categories: None,
            domain: None,
            interface: None,
            prefix: None,
            protocol: None,
            label: None,
            address: None,
            home: None,
            level: None,
            range: None,
            four: None,
            six: None,
            reading_levels: None,
            reading_categories: None,
        }
    }

    /// Whether the parameter came.
    pub(crate) fn has(&self, parameter: Parameter) -> bool
        ensures { result ≡ is_given parameter self.now }
    {
        match parameter {
            Parameter::Doi => self.doi.is_some(),
            Parameter::Tags => self.tags.is_some(),
            Parameter::Levels => self.levels.is_some(),
            Parameter::Categories => self.categories.is_some(),
            Parameter::Domain => self.domain.is_some(),
            Parameter::Interface => self.interface.is_some(),
            Parameter::Prefix => self.prefix.is_some(),
            Parameter::Protocol => self.protocol.is_some(),
            Parameter::Label => self.label.is_some(),
            Parameter::Address => self.address.is_some(),
            Parameter::Home => self.home.is_some(),
            Parameter::Level => self.level.is_some(),
            Parameter::Range => self.range.is_some(),
            Parameter::Four => self.four.is_some(),
            Parameter::Six => self.six.is_some(),
            Parameter::ReadingLevels => self.reading_levels.is_some(),
            Parameter::ReadingCategories => self.reading_categories.is_some(),
        }
    }

    /// Reads what a parameter's word says behind its key; whether that is in the parameter's form. Where it isn't, the parameter
    /// hasn't come.
    pub(crate) fn read(
        &mut self,
        alloc: Global,
        parameter: Parameter,
        key: &[u8],
        text: &[u8],
    ) -> Result<bool, OutOfMemory>
        ensures { IfOk result
            (λ read.
            (if read then Some self.new else None)
            ≡ with_value with_translations parameter key.now text.now self.old) }
    {
        self.fill(alloc, parameter, key, text)?;
        Ok(self.has(parameter))
    }

    /// Puts what a parameter's word says behind its key in its place, or none where that isn't in the parameter's form.
    fn fill(
        &mut self,
        alloc: Global,
        parameter: Parameter,
        key: &[u8],
        text: &[u8],
    ) -> Result<(), OutOfMemory>
        ensures { OnOk result
            (self.new ≡ fields_with with_translations parameter key.now text.now self.old) }
    {
        match parameter {
            Parameter::Doi => self.doi = read_doi(text),
            Parameter::Tags => self.tags = Tags::read(alloc, text)?,
            Parameter::Levels => self.levels = CommaList::read(alloc, text)?,
            Parameter::Categories => self.categories = CommaList::read(alloc, text)?,
            Parameter::Domain => self.domain = read_named(key, text),
            Parameter::Interface => self.interface = read_named(key, text),
            Parameter::Prefix => self.prefix = read_prefix(text),
            Parameter::Protocol => self.protocol = read_map_protocol(text),
            Parameter::Label => self.label = read_static_range(alloc, text)?,
            Parameter::Address => self.address = read_address(text),
            Parameter::Home => self.home = read_name(text),
            Parameter::Level => self.level = read_receiver_range(alloc, text)?,
            Parameter::Range => self.range = read_kept_range(alloc, text)?,
            Parameter::Four => self.four = read_four(text),
            Parameter::Six => self.six = read_six(text),
            Parameter::ReadingLevels => self.reading_levels = CommaList::read(alloc, text)?,
            Parameter::ReadingCategories => {
                self.reading_categories = CommaList::read(alloc, text)?;
            }
        }
        Ok(())
    }
}

/// The default one for the word `default`, else a name.
fn read_named(key: &[u8], text: &[u8]) -> Option<Option<Name>>
    ensures { result ≡ named_or_default key.now text.now }
{
    if is_word(key, "default") {
        return Some(None);
    }
    let name = read_name(text)?;
    Some(Some(name))
}

/// Reads a whole text as a range.
fn read_kept_range(alloc: Global, text: &[u8]) -> Result<Option<KeptRange>, OutOfMemory>
    ensures { IfOk result (λ read. read ≡ range_of_text text.now) }
{
    let mut range = Range::lowest();
    if read_range_into(text, &mut range).is_err() {
        return Ok(None);
    }
    let kept = KeptRange::of(alloc, &range)?;
    Ok(Some(kept))
}
