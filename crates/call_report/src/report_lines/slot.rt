//! What stands at a place of a line.

ghost use Rattle.std.specs.Prelude.{◌≡◌};
ghost use Rattle.call_report.specs.report_lines.Slot.{fixed_text, field_name, field_number};

/// What a word says, by the name under which it is told.
#[derive(Clone, Copy)]
pub enum Field {
    Step,
    Node,
    Answer,
    Lines,
    Flow,
    Input,
    Number,
    Became,
    Label,
    Receiver,
    Carrier,
    Denial,
    Name,
    Octet,
    Category,
    Cause,
    Hop,
    Versions,
    Packets,
    Passed,
    Denied,
    Capture,
    Kind,
    Line,
    Limit,
    Most,
    Nodes,
    Commands,
    Flows,
}

impl Field {
    /// The field's name.
    pub fn name(self) -> &'static [u8]
        ensures { result.now ≡ field_name self }
    {
        match self {
            Field::Step => b"step",
            Field::Node => b"node",
            Field::Answer => b"answer",
            Field::Lines => b"lines",
            Field::Flow => b"flow",
            Field::Input => b"input",
            Field::Number => b"number",
            Field::Became => b"became",
            Field::Label => b"label",
            Field::Receiver => b"receiver",
            Field::Carrier => b"carrier",
            Field::Denial => b"denial",
            Field::Name => b"name",
            Field::Octet => b"octet",
            Field::Category => b"category",
            Field::Cause => b"cause",
            Field::Hop => b"hop",
            Field::Versions => b"versions",
            Field::Packets => b"packets",
            Field::Passed => b"passed",
            Field::Denied => b"denied",
            Field::Capture => b"capture",
            Field::Kind => b"kind",
            Field::Line => b"at",
            Field::Limit => b"limit",
            Field::Most => b"most",
            Field::Nodes => b"nodes",
            Field::Commands => b"commands",
            Field::Flows => b"flows",
        }
    }

    /// Its number, by which it is told from others.
    pub(crate) fn number(self) -> u8
        ensures { result ≡ field_number self }
    {
        match self {
            Field::Step => 0,
            Field::Node => 1,
            Field::Answer => 2,
            Field::Lines => 3,
            Field::Flow => 4,
            Field::Input => 5,
            Field::Number => 6,
            Field::Became => 7,
            Field::Label => 8,
            Field::Receiver => 9,
            Field::Carrier => 10,
            Field::Denial => 11,
            Field::Name => 12,
            Field::Octet => 13,
            Field::Category => 14,
            Field::Cause => 15,
            Field::Hop => 16,
            Field::Versions => 17,
            Field::Packets => 18,
            Field::Passed => 19,
            Field::Denied => 20,
            Field::Capture => 21,
            Field::Kind => 22,
            Field::Line => 23,
            Field::Limit => 24,
            Field::Most => 25,
            Field::Nodes => 26,
            Field::Commands => 27,
            Field::Flows => 28,
        }
    }
}

/// A word that stands as it is.
#[derive(Clone, Copy)]
pub enum Fixed {
    Command,
    Done,
    Listed,
    Flow,
    Packet,
    Delivered,
    To,
    Sent,
    Denied,
    Octet,
    Category,
    Hop,
    Node,
    Versions,
    End,
    Packets,
    Passed,
    Capture,
    Script,
    Line,
    Limit,
    /// In place of a node, where none judges.
    Nobody,
    Ok,
    Nodes,
    Commands,
    Flows,
}

impl Fixed {
    /// The word's text.
    pub fn text(self) -> &'static [u8]
        ensures { result.now ≡ fixed_text self }
    {
        match self {
            Fixed::Command => b"command",
            Fixed::Done => b"done",
            Fixed::Listed => b"listed",
            Fixed::Flow => b"flow",
            Fixed::Packet => b"packet",
            Fixed::Delivered => b"delivered",
            Fixed::To => b"to",
            Fixed::Sent => b"sent",
            Fixed::Denied => b"denied",
            Fixed::Octet => b"octet",
            Fixed::Category => b"category",
            Fixed::Hop => b"hop",
            Fixed::Node => b"node",
            Fixed::Versions => b"versions",
            Fixed::End => b"end",
            Fixed::Packets => b"packets",
            Fixed::Passed => b"passed",
            Fixed::Capture => b"capture",
            Fixed::Script => b"script",
            Fixed::Line => b"line",
            Fixed::Limit => b"limit",
            Fixed::Nobody => b"-",
            Fixed::Ok => b"ok",
            Fixed::Nodes => b"nodes",
            Fixed::Commands => b"commands",
            Fixed::Flows => b"flows",
        }
    }
}

/// Of which texts a word is.
#[derive(Clone, Copy)]
pub enum Kind {
    /// A name of a node.
    Node,
    /// A name of a file.
    Input,
    /// A label in its one written form.
    Label,
    Address,
    Carrier,
    /// Why a command is refused.
    Refusal,
    /// Why a packet is denied: the name of the number before it, where nothing more is told, an octet, a category or a cause; and why a frame is.
    PlainDenial,
    OctetDenial,
    CategoryDenial,
    CauseDenial,
    FrameDenial,
    Cause,
    /// The fault of a capture, of a script.
    CaptureFault,
    ScriptFault,
    /// What there is too much of.
    Limit,
}

/// What stands at a place of a line.
#[derive(Clone, Copy)]
pub enum Slot {
    /// A word that says nothing by itself.
    Fixed { text: Fixed },
    /// A word that tells one form from another.
    Tag { field: Field, text: Fixed },
    /// A decimal number below 2^64, without a leading zero.
    Number { field: Field },
    /// The number 0.
    Zero { field: Field },
    Text { field: Field, kind: Kind },
    /// A flow's number and a packet's, with a dot between.
    Place,
    /// Versions with commas between.
    Versions,
    /// `-`, where there are none.
    NoVersions,
}
