//! The written values of parameters.

ghost use Rattle.std.specs.Prelude.{◌≡◌, ◌++◌, IfSome, IsTrue, OnOk, OnErr, option_copied, option_map};
ghost use Rattle.std.specs.Fmt.{decimal};
ghost use Rattle.mls_range.specs.RangeText.{range_text};
ghost use Rattle.domain_map.specs.declared.address_text.address.Address.TheVariants.{V4, V6};
ghost use Rattle.domain_map.specs.address_text.Address.{address_text, IsAddress, IsOctetsOf};
ghost use Rattle.domain_map.specs.address_text.Name.{IsNameText};
ghost use Rattle.domain_map.specs.address_text.Prefix.{prefix_text, IsBlock};
ghost use Rattle.script_lines.specs.command_values.Doi.{is_doi};
ghost use Rattle.script_lines.specs.command_values.List.{list_text, AreEntries};
ghost use Rattle.script_lines.specs.command_values.MapProtocol.{is_map_protocol, map_protocol_text};
ghost use Rattle.script_lines.specs.command_values.Ranges.{receiver_range_text, IsMlsRange};
ghost use Rattle.script_lines.specs.command_values.Tags.{tag_number_text, AreTags};
ghost use Rattle.script_lines.specs.Value.{text_or_none, value_text, IsValue};
ghost use Rattle.script_lines.specs.inside.Extends.{Extends};

use crate::command_values::{
    CommaList, Doi, ListEntry, MapProtocol, Tags, write_map_protocol, write_receiver_range,
    write_static_range,
};
use crate::parameter::Parameter;
use crate::shown::Shown;
use domain_map::{Address, Name, Prefix, write_address, write_prefix};
use mls_label::{OutOfMemory, write_decimal};
use mls_range::KeptRange;

/// Appends the value of a parameter, if it is given.
pub(crate) fn append_value(
    parameter: Parameter,
    fields: &Shown<'_>,
    out: &mut Vec<u8>,
) -> Result<(), OutOfMemory>
    ensures ok { OnOk result (out.new.items ≡ out.old.items ++ value_text parameter fields.now) }
    ensures value { OnOk result (IsValue parameter fields.now) }
    ensures err { OnErr result (Extends out.old.items out.new.items) }
{
    match parameter {
        Parameter::Doi => append_doi(&fields.doi, out),
        Parameter::Tags => append_tags(fields.tags, out),
        Parameter::Levels => append_list(fields.levels, out),
        Parameter::Categories => append_list(fields.categories, out),
        Parameter::Domain => append_domain(fields.domain, out),
        Parameter::Interface => append_domain(fields.interface, out),
        Parameter::Prefix => append_prefix(&fields.prefix, out),
        Parameter::Protocol => append_protocol(&fields.protocol, out),
        Parameter::Label => append_range(fields.label, out),
        Parameter::Address => append_address(&fields.address, out),
        Parameter::Home => append_name(fields.home, out),
        Parameter::Level => append_level(fields.level, out),
        Parameter::Range => append_range(fields.range, out),
        Parameter::Four => append_four(&fields.four, out),
        Parameter::Six => append_six(&fields.six, out),
        Parameter::ReadingLevels | Parameter::ReadingCategories => Ok(()),
    }
}

fn append_doi(doi: &Option<Doi>, out: &mut Vec<u8>) -> Result<(), OutOfMemory>
    ensures ok { OnOk result (out.new.items ≡ out.old.items ++ text_or_none decimal doi.now) }
    ensures value { OnOk result (IfSome doi.now (λ d. IsTrue (is_doi d))) }
    ensures err { OnErr result (out.new.items ≡ out.old.items) }
{
    if let Some(doi) = doi {
        write_decimal(u64::from(doi.get()), out)?;
    }
    Ok(())
}

fn append_tags(tags: Option<&Tags>, out: &mut Vec<u8>) -> Result<(), OutOfMemory>
    ensures ok { OnOk result
        (out.new.items ≡ out.old.items
        ++ text_or_none (list_text tag_number_text) (option_copied tags.entry)) }
    ensures value { OnOk result (IfSome (option_copied tags.entry) AreTags) }
    ensures err { OnErr result (out.new.items ≡ out.old.items) }
{
    match tags {
        Some(tags) => {
            let _tags = tags.as_slice();
            tags.write(out)
        }
        None => Ok(()),
    }
}

fn append_list<E: ListEntry>(
    list: Option<&CommaList<E>>,
    out: &mut Vec<u8>,
) -> Result<(), OutOfMemory>
    ensures ok { OnOk result
        (out.new.items ≡ out.old.items
        ++ text_or_none (list_text E.text_of) (option_copied list.entry)) }
    ensures value { OnOk result (IfSome (option_copied list.entry) (AreEntries E.is_entry)) }
    ensures err { OnErr result (out.new.items ≡ out.old.items) }
{
    match list {
        Some(list) => {
            let _entries = list.as_slice();
            list.write(out)
        }
        None => Ok(()),
    }
}

fn append_domain(domain: Option<Option<&Name>>, out: &mut Vec<u8>) -> Result<(), OutOfMemory>
    ensures ok { OnOk result
        (out.new.items ≡ out.old.items
        ++ text_or_none (text_or_none (λ name. name)) (option_map option_copied domain.entry)) }
    ensures value { OnOk result
        (IfSome (option_map option_copied domain.entry) (λ name. IfSome name IsNameText)) }
    ensures err { OnErr result (out.new.items ≡ out.old.items) }
{
    match domain {
        Some(name) => append_name(name, out),
        None => Ok(()),
    }
}

fn append_name(name: Option<&Name>, out: &mut Vec<u8>) -> Result<(), OutOfMemory>
    ensures ok { OnOk result
        (out.new.items ≡ out.old.items ++ text_or_none (λ text. text) (option_copied name.entry)) }
    ensures value { OnOk result (IfSome (option_copied name.entry) IsNameText) }
    ensures err { OnErr result (out.new.items ≡ out.old.items) }
{
    if let Some(name) = name {
        out.extend_from_slice(name.text())?;
    }
    Ok(())
}

fn append_prefix(prefix: &Option<Prefix>, out: &mut Vec<u8>) -> Result<(), OutOfMemory>
    ensures ok { OnOk result
        (out.new.items ≡ out.old.items ++ text_or_none prefix_text prefix.now) }
    ensures value { OnOk result (IfSome prefix.now IsBlock) }
    ensures err { OnErr result (out.new.items ≡ out.old.items) }
{
    match prefix {
        Some(prefix) => {
            let _bits = prefix.bits();
            write_prefix(prefix, out)
        }
        None => Ok(()),
    }
}

fn append_protocol(protocol: &Option<MapProtocol>, out: &mut Vec<u8>) -> Result<(), OutOfMemory>
    ensures ok { OnOk result
        (out.new.items ≡ out.old.items ++ text_or_none map_protocol_text protocol.now) }
    ensures value { OnOk result (IfSome protocol.now (λ p. IsTrue (is_map_protocol p))) }
    ensures err { OnErr result (out.new.items ≡ out.old.items) }
{
    match protocol {
        Some(protocol) => {
            let _protocol = protocol.get();
            write_map_protocol(protocol, out)
        }
        None => Ok(()),
    }
}

fn append_range(range: Option<&KeptRange>, out: &mut Vec<u8>) -> Result<(), OutOfMemory>
    ensures ok { OnOk result
        (out.new.items ≡ out.old.items ++ text_or_none range_text (option_copied range.entry)) }
    ensures value { OnOk result (IfSome (option_copied range.entry) IsMlsRange) }
    ensures err { OnErr result (out.new.items ≡ out.old.items) }
{
    match range {
        Some(range) => write_static_range(range.range(), out),
        None => Ok(()),
    }
}

fn append_level(level: Option<&KeptRange>, out: &mut Vec<u8>) -> Result<(), OutOfMemory>
    ensures ok { OnOk result
        (out.new.items ≡ out.old.items
        ++ text_or_none receiver_range_text (option_copied level.entry)) }
    ensures value { OnOk result (IfSome (option_copied level.entry) IsMlsRange) }
    ensures err { OnErr result (out.new.items ≡ out.old.items) }
{
    match level {
        Some(level) => write_receiver_range(level.range(), out),
        None => Ok(()),
    }
}

fn append_address(address: &Option<Address>, out: &mut Vec<u8>) -> Result<(), OutOfMemory>
    ensures ok { OnOk result
        (out.new.items ≡ out.old.items ++ text_or_none address_text address.now) }
    ensures value { OnOk result (IfSome address.now IsAddress) }
    ensures err { OnErr result (out.new.items ≡ out.old.items) }
{
    match address {
        Some(address) => {
            let _width = address.width();
            write_address(address, out)
        }
        None => Ok(()),
    }
}

fn append_four(four: &Option<[u8; 4]>, out: &mut Vec<u8>) -> Result<(), OutOfMemory>
    ensures ok { OnOk result
        (out.new.items ≡ out.old.items
        ++ text_or_none (λ octets. address_text (V4 octets)) four.now) }
    ensures value { OnOk result (IfSome four.now (IsOctetsOf 4)) }
    ensures err { OnErr result (out.new.items ≡ out.old.items) }
{
    match four {
        Some(octets) => {
            let address = Address::V4(*octets);
            let _width = address.width();
            write_address(&address, out)
        }
        None => Ok(()),
    }
}

fn append_six(six: &Option<[u8; 16]>, out: &mut Vec<u8>) -> Result<(), OutOfMemory>
    ensures ok { OnOk result
        (out.new.items ≡ out.old.items
        ++ text_or_none (λ octets. address_text (V6 octets)) six.now) }
    ensures value { OnOk result (IfSome six.now (IsOctetsOf 16)) }
    ensures err { OnErr result (out.new.items ≡ out.old.items) }
{
    match six {
        Some(octets) => {
            let address = Address::V6(*octets);
            let _width = address.width();
            write_address(&address, out)
        }
        None => Ok(()),
    }
}
