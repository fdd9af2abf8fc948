//! Whole options.

ghost use Rattle.std.specs.Prelude.{IfOk, IfErr};
ghost use Rattle.mls_label.specs.octet_grammar.Front.{ReadsFront};
ghost use Rattle.mls_label.specs.octet_grammar.Fault.{FailsFront};
ghost use Rattle.cipso_option.specs.Cipso.{IsCipso};

use crate::Cipso;
use crate::bounds::HEAD_OCTETS;
use crate::head::{read_doi, read_start, read_tag_head};
use cipso_tags::read_tag_into;
use mls_label::{Label, Tag, WireFault, moved};

/// What an option says beside its label, and how many octets it has.
#[derive(Clone, Copy, Debug)]
pub struct CipsoHead {
    pub doi: u32,
    pub tag: Tag,
    pub length: usize,
}

/// The CIPSO option at the front of the octets, and how many octets it has (FIPS 188; CIPSO draft 2.2). It has one tag of
/// type 1, 2 or 5, which fills it. A fault stands at the first octet that no option with the octets before it has there.
pub fn read_cipso(bytes: &[u8]) -> Result<(Cipso, usize), WireFault>
    ensures ok { IfOk result (λ read. ReadsFront IsCipso bytes.now read.0 read.1) }
    ensures err { IfErr result (λ e. FailsFront IsCipso bytes.now e) }
{
    let mut label = Label::lowest();
    let head = read_cipso_into(bytes, &mut label)?;
    let cipso = Cipso {
        doi: head.doi,
        tag: head.tag,
        label,
    };
    Ok((cipso, head.length))
}

/// The same with the label in place of the one that is lent, which is any label after a fault.
pub fn read_cipso_into(bytes: &[u8], label: &mut Label) -> Result<CipsoHead, WireFault>
    ensures ok { IfOk result
        (λ head. ReadsFront IsCipso bytes.now
        (record { doi = head.doi; tag = head.tag; label = label.new }) head.length) }
    ensures err { IfErr result (λ e. FailsFront IsCipso bytes.now e) }
{
    read_start(bytes)?;
    let doi = read_doi(bytes)?;
    read_tag_head(bytes)?;
    let rest = &bytes[HEAD_OCTETS..];
    let (tag, length) = moved(read_tag_into(rest, label), HEAD_OCTETS, rest.len())?;
    Ok(CipsoHead {
        doi,
        tag,
        length: HEAD_OCTETS + length,
    })
}
