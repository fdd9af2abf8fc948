//! Whether a word may stand in a slot.

ghost use Rattle.std.specs.Prelude.{◌≡◌, codes, map};
ghost use Rattle.domain_map.specs.address_text.Name.{is_name};
ghost use Rattle.call_report.specs.report_lines.Slot.{is_number, is_place, is_versions, is_carrier, is_written_label, is_one_of, is_pair, is_pair_of, is_of, may_stand};

use crate::report_lines::label_text::is_written;
use crate::report_lines::slot::{Kind, Slot};
use crate::report_lines::texts::{first_part, parts_at, whole_number};
use domain_map::{read_address, read_name};
use label_commands::is_file_name;
use mls_label::Label;
use mls_range::read_label_into;
use script_lines::read_doi;

/// Whether a word may stand in a slot, after another one. A label is read into `label`.
#[tactic(auto, unfolding(crate::specs::report_lines::Slot::may_stand))]
pub(crate) fn may_stand(slot: Slot, before: &[u8], word: &[u8], label: &mut Label) -> bool
    ensures { result ≡ may_stand slot before.now word.now }
{
    match slot {
        Slot::Fixed { text } => word == text.text(),
        Slot::Tag { text, .. } => word == text.text(),
        Slot::Number { .. } => is_number(word),
        Slot::Zero { .. } => word == b"0".as_slice(),
        Slot::Text { kind, .. } => is_of(kind, before, word, label),
        Slot::Place => is_place(word),
        Slot::Versions => is_versions(word),
        Slot::NoVersions => word == b"-".as_slice(),
    }
}

fn is_number(word: &[u8]) -> bool
    ensures { result ≡ is_number word.now }
{
    whole_number(word).is_some()
}

/// Why a command is refused.
const REFUSALS: [&str; 18] = [
    "DoiExists",
    "DoiUnknown",
    "DoiInUse",
    "NotOneToOne",
    "TooManyPairs",
    "MapExists",
    "MapUnknown",
    "MapPlain",
    "MapHasAddresses",
    "StaticExists",
    "StaticUnknown",
    "ReceiverExists",
    "ReceiverUnknown",
    "RangeExists",
    "RangeUnknown",
    "PairExists",
    "PairUnknown",
    "TableFull",
];

/// Why a packet is denied, by number and name, where no more is told.
const PLAIN_DENIALS: [&str; 15] = [
    "3 Unlabelled",
    "4 NoStatic",
    "7 LevelUnmapped",
    "9 OutsideRange",
    "10 NoReceiver",
    "11 MapRefuses",
    "12 NotDominated",
    "13 NoMap",
    "15 Inexpressible",
    "16 NoRoom",
    "17 TooLong",
    "18 Expired",
    "19 WrongVersion",
    "20 NoPair",
    "23 BelowRange",
];

/// The same where an octet is told.
const OCTET_DENIALS: [&str; 5] = [
    "1 BadHeader",
    "2 BadOption",
    "5 UnknownDoi",
    "6 TagNotAllowed",
    "14 AlreadyLabelled",
];

/// The same where a category is told.
const CATEGORY_DENIALS: [&str; 1] = ["8 CategoryUnmapped"];

/// The same where a cause is told.
const CAUSE_DENIALS: [&str; 1] = ["21 NotCrossable"];

/// The same of a frame.
const FRAME_DENIALS: [&str; 1] = ["22 NotIp"];

/// Why a packet can't go over to the other version.
const CAUSES: [&str; 5] = ["Protocol", "Fragment", "Options", "Segment", "NoChecksum"];

/// What is wrong in a capture.
const CAPTURE_FAULTS: [&str; 14] = [
    "Short",
    "Magic",
    "Version",
    "LinkType",
    "Captured",
    "SnapCut",
    "Long",
    "BlockLength",
    "Trailer",
    "Block",
    "Options",
    "Interface",
    "Resolution",
    "Time",
];

/// What is wrong in a script.
const SCRIPT_FAULTS: [&str; 12] = [
    "Octet",
    "Word",
    "NoNode",
    "Value",
    "UnknownNode",
    "HopOrder",
    "NameTwice",
    "Extra",
    "Missing",
    "ReadingTwice",
    "NotIncreasing",
    "NotDistinct",
];

/// Whose number is limited.
const LIMITS: [&str; 6] = ["octets", "lines", "nodes", "flows", "hops", "packets"];

/// Whether a word is of a kind.
#[tactic(auto, unfolding(crate::specs::report_lines::Slot::refusals, crate::specs::report_lines::Slot::plain_denials, crate::specs::report_lines::Slot::octet_denials, crate::specs::report_lines::Slot::category_denials, crate::specs::report_lines::Slot::cause_denials, crate::specs::report_lines::Slot::frame_denials, crate::specs::report_lines::Slot::causes, crate::specs::report_lines::Slot::capture_faults, crate::specs::report_lines::Slot::script_faults, crate::specs::report_lines::Slot::limits))]
fn is_of(kind: Kind, before: &[u8], word: &[u8], label: &mut Label) -> bool
    ensures { result ≡ is_of kind before.now word.now }
{
    match kind {
        Kind::Node => read_name(word).is_some(),
        Kind::Input => is_file_name(word),
        Kind::Label => is_written_label(word, label),
        Kind::Address => read_address(word).is_some(),
        Kind::Carrier => is_carrier(word),
        Kind::Refusal => is_one_of(word, &REFUSALS),
        Kind::PlainDenial => is_pair_of(before, word, &PLAIN_DENIALS),
        Kind::OctetDenial => is_pair_of(before, word, &OCTET_DENIALS),
        Kind::CategoryDenial => is_pair_of(before, word, &CATEGORY_DENIALS),
        Kind::CauseDenial => is_pair_of(before, word, &CAUSE_DENIALS),
        Kind::FrameDenial => is_pair_of(before, word, &FRAME_DENIALS),
        Kind::Cause => is_one_of(word, &CAUSES),
        Kind::CaptureFault => is_one_of(word, &CAPTURE_FAULTS),
        Kind::ScriptFault => is_one_of(word, &SCRIPT_FAULTS),
        Kind::Limit => is_one_of(word, &LIMITS),
    }
}

/// Whether a word is a label in its one written form.
fn is_written_label(word: &[u8], label: &mut Label) -> bool
    ensures { result ≡ is_written_label word.now }
{
    match read_label_into(word, label) {
        Ok(()) => is_written(label, word),
        Err(_) => false,
    }
}

fn is_one_of(word: &[u8], names: &[&str]) -> bool
    ensures { result ≡ is_one_of (map (λ name. name.now) names.now) word.now }
{
    let mut names = names;
    while let [name, rest @ ..] = names {
        if word == name.as_bytes() {
            return true;
        }
        names = rest;
    }
    false
}

/// Whether a word is one of the names behind its number.
fn is_pair_of(before: &[u8], word: &[u8], pairs: &[&str]) -> bool
    ensures { result ≡ is_pair_of (map (λ pair. pair.now) pairs.now) before.now word.now }
{
    let mut pairs = pairs;
    while let [pair, rest @ ..] = pairs {
        if is_pair(before, word, pair) {
            return true;
        }
        pairs = rest;
    }
    false
}

fn is_pair(before: &[u8], word: &[u8], pair: &str) -> bool
    ensures { result ≡ is_pair before.now word.now pair.now }
{
    let (number, name) = parts_at(pair.as_bytes(), b' ');
    before == number && word == name
}

fn is_place(word: &[u8]) -> bool
    ensures { result ≡ is_place word.now }
{
    let (flow, number) = parts_at(word, b'.');
    is_number(flow) && is_number(number)
}

fn is_carrier(word: &[u8]) -> bool
    ensures { result ≡ is_carrier word.now }
{
    if word == b"unlbl".as_slice() {
        return true;
    }
    let (protocol, doi) = parts_at(word, b',');
    (protocol == b"cipsov4".as_slice() || protocol == b"calipso".as_slice())
        && read_doi(doi).is_some()
}

/// Whether a word is numbers with commas between.
fn is_versions(word: &[u8]) -> bool
    ensures { result ≡ is_versions word.now }
{
    let mut text = word;
    loop {
        let part = first_part(text, b',');
        if !is_number(part.text) {
            return false;
        }
        if !part.more {
            return true;
        }
        text = part.rest;
    }
}
