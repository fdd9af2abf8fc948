//! Labels as options of a protocol.

ghost use Rattle.std.specs.Prelude.{◌≡◌, Ok, Err, OnOk, IfErr};
ghost use Rattle.std.specs.Option.{option_copied};
ghost use Rattle.domain_map.specs.declared.protocol.Protocol.TheVariants.{Calipso, Cipso};
ghost use Rattle.ip_headers.specs.declared.version.Version.TheVariants.{V4, V6};
ghost use Rattle.mls_label.specs.Label.{IsLabel};
ghost use Rattle.label_send.specs.Outgoing.{IsExpressed, outgoing};
ghost use Rattle.doi_table.specs.Translation.{wire_label};
ghost use Rattle.label_send.specs.inside.Option.{IsDefinedFor, numbers_of};

use arrayvec::ArrayVec;
use calipso_option::{can_express, write_calipso};
use cipso_option::{first_tag, write_cipso};
use doi_table::{DoiDef, Proto, Unmapped, to_wire_into};
use mls_label::Label;
use node_tables::Tables;
use packet_label::Denial;

/// Makes of `option` the CIPSO option (FIPS 188; CIPSO draft 2.2) that says the label under a DOI of the node, in the first of its tags
/// that can express it on the wire. The label that is lent becomes any label, and after a denial the option any octets.
///
/// Inexpressible comes where the DOI isn't defined, its definition has no number for the label's level or one of its categories, or
/// none of its tags can express the label.
pub fn cipso_for(
    tables: &Tables,
    doi: u32,
    label: &Label,
    wire: &mut Label,
    option: &mut ArrayVec<u8, 40>,
) -> Result<(), Denial>
    ensures ok { OnOk result
        (IsExpressed V4 (outgoing tables.now.definitions (Cipso doi) label.now) option.new.items) }
    ensures err { IfErr result
        (λ why. outgoing tables.now.definitions (Cipso doi) label.now ≡ Err why) }
{
    let Some(def) = definition_for(tables, Proto::Cipso, doi, label, wire) else {
        return Err(Denial::Inexpressible);
    };
    let wire = numbers_of(def, label, wire);
    let Some(tag) = first_tag(def.tags(), wire) else {
        return Err(Denial::Inexpressible);
    };
    option.clear();
    write_cipso(doi, tag, wire, option);
    Ok(())
}

/// Makes of `option` the CALIPSO option (RFC 5570) that says the label under a DOI of the node. The label that is lent becomes any label,
/// and after a denial the option any octets.
///
/// Inexpressible comes where the DOI isn't defined, its definition has no number for the label's level or one of its categories, or
/// the label has a category above 1951 on the wire.
pub fn calipso_for(
    tables: &Tables,
    doi: u32,
    label: &Label,
    wire: &mut Label,
    option: &mut ArrayVec<u8, 254>,
) -> Result<(), Denial>
    ensures ok { OnOk result
        (IsExpressed V6
        (outgoing tables.now.definitions (Calipso doi) label.now) option.new.items) }
    ensures err { IfErr result
        (λ why. outgoing tables.now.definitions (Calipso doi) label.now ≡ Err why) }
{
    let Some(def) = definition_for(tables, Proto::Calipso, doi, label, wire) else {
        return Err(Denial::Inexpressible);
    };
    let wire = numbers_of(def, label, wire);
    if !can_express(wire) {
        return Err(Denial::Inexpressible);
    }
    option.clear();
    write_calipso(doi, wire, option);
    Ok(())
}

// The definition of a DOI of the node that has numbers on the wire for the label, which are then `numbers_of` it.
fn definition_for<'a>(
    tables: &'a Tables,
    proto: Proto,
    doi: u32,
    label: &Label,
    wire: &mut Label,
) -> Option<&'a DoiDef>
    ensures { IsDefinedFor tables.now.definitions proto doi label.now wire.new
        (option_copied result) }
{
    let def = tables.dois().find(proto, doi)?;
    let Ok(()) = translate(def, label, wire) else {
        return None;
    };
    is_label(numbers_of(def, label, wire));
    Some(def)
}

// Gives the label that is lent the numbers on the wire, where they are others: most definitions pass all numbers, and then nothing is copied.
fn translate(def: &DoiDef, label: &Label, wire: &mut Label) -> Result<(), Unmapped>
    ensures ok { OnOk result
        (wire_label def.now label.now ≡ Ok (numbers_of def.now label.now wire.new)) }
    ensures err { IfErr result (λ why. wire_label def.now label.now ≡ Err why) }
{
    if !def.plan().trans {
        return Ok(());
    }
    to_wire_into(def, label, wire)
}

// The numbers on the wire, once they were translated.
fn numbers_of<'a>(def: &DoiDef, label: &'a Label, wire: &'a Label) -> &'a Label
    ensures { result.now ≡ numbers_of def.now label.now wire.now }
{
    if def.plan().trans { wire } else { label }
}

// Has nothing to do: each label keeps what its clause says.
fn is_label(label: &Label)
    ensures { IsLabel label.now }
{
    let _level = label.level;
    let _runs = label.cats.runs();
}
