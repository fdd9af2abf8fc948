//! Whole tags.

ghost use Rattle.std.specs.Prelude.{IfOk, IfErr};
ghost use Rattle.mls_label.specs.octet_grammar.Front.{ReadsFront};
ghost use Rattle.mls_label.specs.octet_grammar.Fault.{FailsFront};
ghost use Rattle.cipso_tags.specs.Tag.{IsTag};

use crate::body::read_body;
use crate::bounds::HEADER_OCTETS;
use crate::header::read_header;
use mls_label::{Label, Tag, WireFault, moved};

/// The tag at the front of the octets, its label, and how many octets it has (FIPS 188; CIPSO draft 2.2, section 3.4).
/// A fault stands at the first octet that no tag with the octets before it has there.
pub fn read_tag(bytes: &[u8]) -> Result<(Tag, Label, usize), WireFault>
    ensures ok { IfOk result (λ read. ReadsFront IsTag bytes.now (read.0, read.1) read.2) }
    ensures err { IfErr result (λ e. FailsFront IsTag bytes.now e) }
{
    let mut label = Label::lowest();
    let (tag, length) = read_tag_into(bytes, &mut label)?;
    Ok((tag, label, length))
}

/// The same with the label in place of the one that is lent, which is any label after a fault.
pub fn read_tag_into(bytes: &[u8], label: &mut Label) -> Result<(Tag, usize), WireFault>
    ensures ok { IfOk result (λ read. ReadsFront IsTag bytes.now (read.0, label.new) read.1) }
    ensures err { IfErr result (λ e. FailsFront IsTag bytes.now e) }
{
    let header = read_header(bytes)?;
    let length = usize::from(header.length);
    label.level = header.level;
    let body = &bytes[HEADER_OCTETS..];
    let read = read_body(header.tag, body, length - HEADER_OCTETS, &mut label.cats);
    moved(read, HEADER_OCTETS, body.len())?;
    Ok((header.tag, length))
}
