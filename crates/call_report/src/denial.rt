//! Lines of denials and verdicts.

ghost use Rattle.std.specs.Prelude.{◌≡◌, ◌<◌, ◌++◌, codes, OnOk, OnErr};
ghost use Rattle.std.specs.Fmt.{decimal};
ghost use Rattle.call_report.specs.Lines.Denial.{detail_of, denial_text, delivered_text, verdict_line, with_label};
ghost use Rattle.call_report.specs.inside.Extends.{Extends};

use crate::parts::append_octet;
use crate::whole::all_or_nothing;
use mls_label::{Label, OutOfMemory, write_decimal};
use mls_range::write_label;
use packet_label::{Denial, cause_name};
use std::alloc::AllocError;

/// Appends the line of a verdict, whose label is lent. After an error `line` is as it was.
pub fn write_verdict(
    verdict: &Result<(), Denial>,
    label: &Label,
    line: &mut Vec<u8>,
) -> Result<(), OutOfMemory>
    ensures ok { OnOk result
        (line.new.items ≡ line.old.items ++ verdict_line (with_label verdict.now label.now)) }
    ensures err { OnErr result (line.new.items ≡ line.old.items) }
{
    let before = line.len();
    let written = append_verdict(verdict, label, line);
    all_or_nothing(written, before, line)
}

/// Appends it, or a part of it where memory runs out.
fn append_verdict(
    verdict: &Result<(), Denial>,
    label: &Label,
    line: &mut Vec<u8>,
) -> Result<(), OutOfMemory>
    ensures ok { OnOk result
        (line.new.items ≡ line.old.items ++ verdict_line (with_label verdict.now label.now)) }
    ensures err { OnErr result (Extends line.old.items line.new.items) }
{
    match verdict {
        Ok(()) => append_delivered(label, line)?,
        Err(denial) => append_denied(denial, line)?,
    }
    line.push(b'\n')?;
    Ok(())
}

/// Appends that the receiver may have the packet, whose label this is.
#[tactic(auto, unfolding(crate::specs::Lines::Denial::delivered_text))]
pub(crate) fn append_delivered(label: &Label, line: &mut Vec<u8>) -> Result<(), OutOfMemory>
    ensures ok { OnOk result (line.new.items ≡ line.old.items ++ delivered_text label.now) }
    ensures err { OnErr result (Extends line.old.items line.new.items) }
{
    line.extend_from_slice(b"delivered ")?;
    write_label(label, line)
}

/// Appends why the receiver may not have it.
#[tactic(auto, unfolding(crate::specs::Lines::Denial::denial_text))]
pub(crate) fn append_denied(denial: &Denial, line: &mut Vec<u8>) -> Result<(), OutOfMemory>
    ensures ok { OnOk result (line.new.items ≡ line.old.items ++ denial_text denial.now) }
    ensures err { OnErr result (Extends line.old.items line.new.items) }
{
    append_number(denial.number(), line)?;
    line.extend_from_slice(denial.name().as_bytes())?;
    append_detail(denial, line)?;
    Ok(())
}

/// Appends that a packet is denied, and the number of the reason, with a blank behind it: all at once, since it has two digits at the most.
#[tactic(auto, using(std::proofs::lemmas::Fmt::decimal_digit, mls_label::proofs::octet_grammar::Digits::two_digits))]
fn append_number(number: u8, line: &mut Vec<u8>) -> Result<(), AllocError>
    requires { number < 100 }
    ensures ok { OnOk result
        (line.new.items ≡ line.old.items ++ (codes "denied " ++ decimal number ++ codes " ")) }
    ensures err { OnErr result (line.new.items ≡ line.old.items) }
{
    let (tens, ones) = (b'0' + number / 10, b'0' + number % 10);
    if number < 10 {
        return line.extend_from_slice(&[b'd', b'e', b'n', b'i', b'e', b'd', b' ', ones, b' ']);
    }
    line.extend_from_slice(&[b'd', b'e', b'n', b'i', b'e', b'd', b' ', tens, ones, b' '])
}

/// Appends the octet at fault, the category or the cause, where the denial has one.
fn append_detail(denial: &Denial, line: &mut Vec<u8>) -> Result<(), AllocError>
    ensures ok { OnOk result (line.new.items ≡ line.old.items ++ detail_of denial.now) }
    ensures err { OnErr result (Extends line.old.items line.new.items) }
{
    match denial {
        Denial::BadHeader { octet }
        | Denial::BadOption { octet }
        | Denial::UnknownDoi { octet }
        | Denial::TagNotAllowed { octet }
        | Denial::AlreadyLabelled { octet } => append_octet(*octet as u64, line),
        Denial::CategoryUnmapped { category } => {
            line.extend_from_slice(b" category ")?;
            write_decimal(u64::from(*category), line)
        }
        Denial::NotCrossable { cause } => {
            line.extend_from_slice(b" ")?;
            line.extend_from_slice(cause_name(*cause).as_bytes())
        }
        Denial::Unlabelled
        | Denial::NoStatic
        | Denial::LevelUnmapped
        | Denial::OutsideRange
        | Denial::NoReceiver
        | Denial::MapRefuses
        | Denial::NotDominated
        | Denial::NoMap
        | Denial::Inexpressible
        | Denial::NoRoom
        | Denial::TooLong
        | Denial::Expired
        | Denial::WrongVersion
        | Denial::NoPair
        | Denial::NotIp
        | Denial::BelowRange => Ok(()),
    }
}
