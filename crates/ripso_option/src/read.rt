//! Whole options.

ghost use Rattle.std.specs.Prelude.{◌≡◌, ◌≤◌, IfOk, IfErr, OnErr, length};
ghost use Rattle.mls_label.specs.octet_grammar.Front.{ReadsFront};
ghost use Rattle.mls_label.specs.octet_grammar.Fault.{FailsFront};
ghost use Rattle.ripso_option.specs.Ripso.{IsRipso};
ghost use Rattle.ripso_option.specs.Reading.{ripso_of, answered_with};

use crate::flags::read_flags;
use crate::layout::read_layout;
use mls_label::{Label, WireFault};

/// The label of the Basic Security Option at the front of the octets, and how many octets it has (this project's layout after
/// RFC 1108). A fault stands at the first octet that no option with the octets before it has there.
pub fn read_ripso(bytes: &[u8]) -> Result<(Label, usize), WireFault>
    ensures ok { IfOk result (λ read. ReadsFront IsRipso bytes.now read.0 read.1) }
    ensures err { IfErr result (λ fault. FailsFront IsRipso bytes.now fault) }
    ensures is { result ≡ ripso_of bytes.now }
{
    let mut label = Label::lowest();
    let length = read_ripso_into(bytes, &mut label)?;
    Ok((label, length))
}

/// The same with the label in place of the one that is lent, which is as it was after a fault.
pub fn read_ripso_into(bytes: &[u8], label: &mut Label) -> Result<usize, WireFault>
    ensures ok { IfOk result (λ length. ReadsFront IsRipso bytes.now label.new length) }
    ensures err { IfErr result (λ fault. FailsFront IsRipso bytes.now fault) }
    ensures is { ripso_of bytes.now ≡ answered_with label.new result }
    ensures kept { OnErr result (label.new ≡ label.old) }
{
    let length = read_layout(bytes)?;
    let option = &bytes[..length];
    label.level = option[2];
    read_flags(&option[3..], &mut label.cats);
    Ok(length)
}
