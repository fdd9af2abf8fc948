//! The table of forms: for each its words, in order.

ghost use Rattle.std.specs.Prelude.{◌≡◌};
ghost use Rattle.call_report.specs.report_lines.Form.{forms, slots_of, form_name};

use crate::report_lines::slot::{Field, Fixed, Kind, Slot};

/// A form of a line.
#[derive(Clone, Copy, Debug, PartialEq, Eq)]
pub enum Form {
    /// A packet was delivered, sent, or denied, by what is told of the denial.
    Delivered,
    Sent,
    DeniedPlain,
    DeniedOctet,
    DeniedCategory,
    DeniedCause,
    /// A frame was denied, since it holds no packet.
    DeniedFrame,
    /// A command was carried out, refused, or has listed lines, which follow.
    Done,
    Refused,
    Listed,
    /// A flow begins, or ends.
    Flow,
    End,
    /// A capture is broken, a limit was passed, or the script is wrong.
    Capture,
    Limit,
    Script,
    /// All flows were carried out.
    Finished,
    /// A script was checked: how much it has.
    Ok,
}

/// The forms, in the order in which they are tried.
const FORMS: [Form; 17] = [
    Form::Delivered,
    Form::Sent,
    Form::DeniedPlain,
    Form::DeniedOctet,
    Form::DeniedCategory,
    Form::DeniedCause,
    Form::DeniedFrame,
    Form::Done,
    Form::Refused,
    Form::Listed,
    Form::Flow,
    Form::End,
    Form::Capture,
    Form::Limit,
    Form::Script,
    Form::Finished,
    Form::Ok,
];

pub(crate) fn forms() -> &'static [Form]
    ensures { result.now ≡ forms }
{
    &FORMS
}

const WORD_PACKET: Slot = Slot::Fixed {
    text: Fixed::Packet,
};

const PLACE: Slot = Slot::Place;

const BECAME_DELIVERED: Slot = Slot::Tag {
    field: Field::Became,
    text: Fixed::Delivered,
};

const TEXT_LABEL: Slot = Slot::Text {
    field: Field::Label,
    kind: Kind::Label,
};

const WORD_TO: Slot = Slot::Fixed { text: Fixed::To };

const TEXT_RECEIVER_ADDRESS: Slot = Slot::Text {
    field: Field::Receiver,
    kind: Kind::Address,
};

const WORD_VERSIONS: Slot = Slot::Fixed {
    text: Fixed::Versions,
};

const VERSIONS: Slot = Slot::Versions;

const BECAME_SENT: Slot = Slot::Tag {
    field: Field::Became,
    text: Fixed::Sent,
};

const TEXT_CARRIER: Slot = Slot::Text {
    field: Field::Carrier,
    kind: Kind::Carrier,
};

const BECAME_DENIED: Slot = Slot::Tag {
    field: Field::Became,
    text: Fixed::Denied,
};

const NUMBER_DENIAL: Slot = Slot::Number {
    field: Field::Denial,
};

const TEXT_NAME_PLAIN_DENIAL: Slot = Slot::Text {
    field: Field::Name,
    kind: Kind::PlainDenial,
};

const WORD_HOP: Slot = Slot::Fixed { text: Fixed::Hop };

const NUMBER_HOP: Slot = Slot::Number { field: Field::Hop };

const WORD_NODE: Slot = Slot::Fixed { text: Fixed::Node };

const TEXT_NODE: Slot = Slot::Text {
    field: Field::Node,
    kind: Kind::Node,
};

const TEXT_NAME_OCTET_DENIAL: Slot = Slot::Text {
    field: Field::Name,
    kind: Kind::OctetDenial,
};

const WORD_OCTET: Slot = Slot::Fixed { text: Fixed::Octet };

const NUMBER_OCTET: Slot = Slot::Number {
    field: Field::Octet,
};

const TEXT_NAME_CATEGORY_DENIAL: Slot = Slot::Text {
    field: Field::Name,
    kind: Kind::CategoryDenial,
};

const WORD_CATEGORY: Slot = Slot::Fixed {
    text: Fixed::Category,
};

const NUMBER_CATEGORY: Slot = Slot::Number {
    field: Field::Category,
};

const TEXT_NAME_CAUSE_DENIAL: Slot = Slot::Text {
    field: Field::Name,
    kind: Kind::CauseDenial,
};

const TEXT_CAUSE: Slot = Slot::Text {
    field: Field::Cause,
    kind: Kind::Cause,
};

const TEXT_NAME_FRAME_DENIAL: Slot = Slot::Text {
    field: Field::Name,
    kind: Kind::FrameDenial,
};

const ZERO_HOP: Slot = Slot::Zero { field: Field::Hop };

const NODE_NOBODY: Slot = Slot::Tag {
    field: Field::Node,
    text: Fixed::Nobody,
};

const NO_VERSIONS: Slot = Slot::NoVersions;

const WORD_COMMAND: Slot = Slot::Fixed {
    text: Fixed::Command,
};

const NUMBER_STEP: Slot = Slot::Number { field: Field::Step };

const ANSWER_DONE: Slot = Slot::Tag {
    field: Field::Answer,
    text: Fixed::Done,
};

const TEXT_ANSWER_REFUSAL: Slot = Slot::Text {
    field: Field::Answer,
    kind: Kind::Refusal,
};

const ANSWER_LISTED: Slot = Slot::Tag {
    field: Field::Answer,
    text: Fixed::Listed,
};

const NUMBER_LINES: Slot = Slot::Number {
    field: Field::Lines,
};

const WORD_FLOW: Slot = Slot::Fixed { text: Fixed::Flow };

const NUMBER_FLOW: Slot = Slot::Number { field: Field::Flow };

const TEXT_INPUT: Slot = Slot::Text {
    field: Field::Input,
    kind: Kind::Input,
};

const WORD_END: Slot = Slot::Fixed { text: Fixed::End };

const WORD_PACKETS: Slot = Slot::Fixed {
    text: Fixed::Packets,
};

const NUMBER_PACKETS: Slot = Slot::Number {
    field: Field::Packets,
};

const WORD_PASSED: Slot = Slot::Fixed {
    text: Fixed::Passed,
};

const NUMBER_PASSED: Slot = Slot::Number {
    field: Field::Passed,
};

const WORD_DENIED: Slot = Slot::Fixed {
    text: Fixed::Denied,
};

const NUMBER_DENIED: Slot = Slot::Number {
    field: Field::Denied,
};

const WORD_CAPTURE: Slot = Slot::Fixed {
    text: Fixed::Capture,
};

const NUMBER_CAPTURE: Slot = Slot::Number {
    field: Field::Capture,
};

const TEXT_KIND_CAPTURE_FAULT: Slot = Slot::Text {
    field: Field::Kind,
    kind: Kind::CaptureFault,
};

const WORD_LIMIT: Slot = Slot::Fixed { text: Fixed::Limit };

const TEXT_LIMIT: Slot = Slot::Text {
    field: Field::Limit,
    kind: Kind::Limit,
};

const NUMBER_MOST: Slot = Slot::Number { field: Field::Most };

const WORD_SCRIPT: Slot = Slot::Fixed {
    text: Fixed::Script,
};

const WORD_LINE: Slot = Slot::Fixed { text: Fixed::Line };

const NUMBER_LINE: Slot = Slot::Number { field: Field::Line };

const TEXT_KIND_SCRIPT_FAULT: Slot = Slot::Text {
    field: Field::Kind,
    kind: Kind::ScriptFault,
};

const WORD_DONE: Slot = Slot::Fixed { text: Fixed::Done };

const WORD_OK: Slot = Slot::Fixed { text: Fixed::Ok };

const NUMBER_NODES: Slot = Slot::Number {
    field: Field::Nodes,
};

const WORD_NODES: Slot = Slot::Fixed { text: Fixed::Nodes };

const NUMBER_COMMANDS: Slot = Slot::Number {
    field: Field::Commands,
};

const WORD_COMMANDS: Slot = Slot::Fixed {
    text: Fixed::Commands,
};

const NUMBER_FLOWS: Slot = Slot::Number {
    field: Field::Flows,
};

const WORD_FLOWS: Slot = Slot::Fixed { text: Fixed::Flows };

/// A packet that was delivered.
const DELIVERED: [Slot; 8] = [
    WORD_PACKET,
    PLACE,
    BECAME_DELIVERED,
    TEXT_LABEL,
    WORD_TO,
    TEXT_RECEIVER_ADDRESS,
    WORD_VERSIONS,
    VERSIONS,
];

/// A packet that left.
const SENT: [Slot; 6] = [
    WORD_PACKET,
    PLACE,
    BECAME_SENT,
    TEXT_CARRIER,
    WORD_VERSIONS,
    VERSIONS,
];

/// A packet that was denied, where no more is told.
const DENIED_PLAIN: [Slot; 11] = [
    WORD_PACKET,
    PLACE,
    BECAME_DENIED,
    NUMBER_DENIAL,
    TEXT_NAME_PLAIN_DENIAL,
    WORD_HOP,
    NUMBER_HOP,
    WORD_NODE,
    TEXT_NODE,
    WORD_VERSIONS,
    VERSIONS,
];

/// The same where an octet is told.
const DENIED_OCTET: [Slot; 13] = [
    WORD_PACKET,
    PLACE,
    BECAME_DENIED,
    NUMBER_DENIAL,
    TEXT_NAME_OCTET_DENIAL,
    WORD_OCTET,
    NUMBER_OCTET,
    WORD_HOP,
    NUMBER_HOP,
    WORD_NODE,
    TEXT_NODE,
    WORD_VERSIONS,
    VERSIONS,
];

/// The same where a category is told.
const DENIED_CATEGORY: [Slot; 13] = [
    WORD_PACKET,
    PLACE,
    BECAME_DENIED,
    NUMBER_DENIAL,
    TEXT_NAME_CATEGORY_DENIAL,
    WORD_CATEGORY,
    NUMBER_CATEGORY,
    WORD_HOP,
    NUMBER_HOP,
    WORD_NODE,
    TEXT_NODE,
    WORD_VERSIONS,
    VERSIONS,
];

/// The same where a cause is told.
const DENIED_CAUSE: [Slot; 12] = [
    WORD_PACKET,
    PLACE,
    BECAME_DENIED,
    NUMBER_DENIAL,
    TEXT_NAME_CAUSE_DENIAL,
    TEXT_CAUSE,
    WORD_HOP,
    NUMBER_HOP,
    WORD_NODE,
    TEXT_NODE,
    WORD_VERSIONS,
    VERSIONS,
];

/// A frame that was denied.
const DENIED_FRAME: [Slot; 11] = [
    WORD_PACKET,
    PLACE,
    BECAME_DENIED,
    NUMBER_DENIAL,
    TEXT_NAME_FRAME_DENIAL,
    WORD_HOP,
    ZERO_HOP,
    WORD_NODE,
    NODE_NOBODY,
    WORD_VERSIONS,
    NO_VERSIONS,
];

/// A command that was carried out.
const DONE: [Slot; 4] = [WORD_COMMAND, NUMBER_STEP, TEXT_NODE, ANSWER_DONE];

/// A command that was refused.
const REFUSED: [Slot; 4] = [WORD_COMMAND, NUMBER_STEP, TEXT_NODE, TEXT_ANSWER_REFUSAL];

/// A command whose lines follow.
const LISTED: [Slot; 5] = [
    WORD_COMMAND,
    NUMBER_STEP,
    TEXT_NODE,
    ANSWER_LISTED,
    NUMBER_LINES,
];

/// The beginning of a flow.
const FLOW: [Slot; 3] = [WORD_FLOW, NUMBER_FLOW, TEXT_INPUT];

/// The end of a flow.
const END: [Slot; 8] = [
    WORD_END,
    NUMBER_FLOW,
    WORD_PACKETS,
    NUMBER_PACKETS,
    WORD_PASSED,
    NUMBER_PASSED,
    WORD_DENIED,
    NUMBER_DENIED,
];

/// A fault of a capture.
const CAPTURE: [Slot; 5] = [
    WORD_CAPTURE,
    NUMBER_CAPTURE,
    WORD_OCTET,
    NUMBER_OCTET,
    TEXT_KIND_CAPTURE_FAULT,
];

/// A number above its limit.
const LIMIT: [Slot; 3] = [WORD_LIMIT, TEXT_LIMIT, NUMBER_MOST];

/// A fault of a script.
const SCRIPT: [Slot; 6] = [
    WORD_SCRIPT,
    WORD_LINE,
    NUMBER_LINE,
    WORD_OCTET,
    NUMBER_OCTET,
    TEXT_KIND_SCRIPT_FAULT,
];

/// The end of a report.
const FINISHED: [Slot; 1] = [WORD_DONE];

/// How much a script has that was checked.
const OK: [Slot; 7] = [
    WORD_OK,
    NUMBER_NODES,
    WORD_NODES,
    NUMBER_COMMANDS,
    WORD_COMMANDS,
    NUMBER_FLOWS,
    WORD_FLOWS,
];

impl Form {
    /// The words of the form.
    pub fn slots(self) -> &'static [Slot]
        ensures { result.now ≡ slots_of self }
    {
        match self {
            Form::Delivered => &DELIVERED,
            Form::Sent => &SENT,
            Form::DeniedPlain => &DENIED_PLAIN,
            Form::DeniedOctet => &DENIED_OCTET,
            Form::DeniedCategory => &DENIED_CATEGORY,
            Form::DeniedCause => &DENIED_CAUSE,
            Form::DeniedFrame => &DENIED_FRAME,
            Form::Done => &DONE,
            Form::Refused => &REFUSED,
            Form::Listed => &LISTED,
            Form::Flow => &FLOW,
            Form::End => &END,
            Form::Capture => &CAPTURE,
            Form::Limit => &LIMIT,
            Form::Script => &SCRIPT,
            Form::Finished => &FINISHED,
            Form::Ok => &OK,
        }
    }

    /// The name of what a line of the form tells of.
    pub fn name(self) -> &'static [u8]
        ensures { result.now ≡ form_name self }
    {
        match self {
            Form::Delivered
            | Form::Sent
            | Form::DeniedPlain
            | Form::DeniedOctet
            | Form::DeniedCategory
            | Form::DeniedCause
            | Form::DeniedFrame => b"packet",
            Form::Done | Form::Refused | Form::Listed => b"command",
            Form::Flow => b"flow",
            Form::End => b"end",
            Form::Capture => b"capture",
            Form::Limit => b"limit",
            Form::Script => b"script",
            Form::Finished => b"done",
            Form::Ok => b"ok",
        }
    }
}
