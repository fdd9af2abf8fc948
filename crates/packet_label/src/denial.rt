//! The words of a judgement.

ghost use Rattle.std.specs.Prelude.{◌≡◌};
ghost use Rattle.packet_label.specs.Denial.{cause_name, name_of, number_of};

use ip_headers::Cause;

/// What carried a label: an option with its DOI, or none.
#[derive(Clone, Copy, Debug, PartialEq, Eq)]
pub enum Carrier {
    Unlabelled,
    Cipso { doi: u32 },
    Calipso { doi: u32 },
}

/// Why a packet is denied. Octets are counted from the packet's first.
#[derive(Clone, Copy, Debug, PartialEq, Eq)]
pub enum Denial {
    /// A header is wrong at this octet.
    BadHeader { octet: usize },
    /// The label option is wrong at this octet, or a second one stands there.
    BadOption { octet: usize },
    /// The packet has no label option, and packets without one aren't accepted.
    Unlabelled,
    /// No static label is set for the source of a packet without a label option.
    NoStatic,
    /// The option's DOI, at this octet, isn't defined.
    UnknownDoi { octet: usize },
    /// The DOI's definition lacks the option's tag, at this octet.
    TagNotAllowed { octet: usize },
    /// The DOI's definition has no level for the option's.
    LevelUnmapped,
    /// The DOI's definition has no category for this one, the least such of the option's.
    CategoryUnmapped { category: u16 },
    /// The label isn't in the interface's range.
    OutsideRange,
    /// Nobody receives at the destination.
    NoReceiver,
    /// The receiver's domain speaks another protocol or DOI with the source.
    MapRefuses,
    /// The receiver's level doesn't dominate the label.
    NotDominated,
    /// The domain has no entry for the destination.
    NoMap,
    /// The packet to be sent has a label option already, at this octet.
    AlreadyLabelled { octet: usize },
    /// No option of the DOI can express the label.
    Inexpressible,
    /// The options pass the room of the header.
    NoRoom,
    /// The packet passes 65,535 octets.
    TooLong,
    /// No hops are left.
    Expired,
    /// The protocol found is of the other version.
    WrongVersion,
    /// An address has no partner in the other version.
    NoPair,
    /// The packet can't be carried over into the other version.
    NotCrossable { cause: Cause },
    /// The frame has no IP packet.
    NotIp,
    /// The label doesn't dominate the low end of the receiver's range.
    BelowRange,
}

/// Why a judgement has no packet to give.
#[derive(Clone, Copy, Debug, PartialEq, Eq)]
pub enum Stop {
    Denied(Denial),
    OutOfMemory,
}

impl Denial {
    /// The number under which it is reported, from 1 to 23.
    pub fn number(&self) -> u8
        ensures { result ≡ number_of self.now }
    {
        match self {
            Denial::BadHeader { .. } => 1,
            Denial::BadOption { .. } => 2,
            Denial::Unlabelled => 3,
            Denial::NoStatic => 4,
            Denial::UnknownDoi { .. } => 5,
            Denial::TagNotAllowed { .. } => 6,
            Denial::LevelUnmapped => 7,
            Denial::CategoryUnmapped { .. } => 8,
            Denial::OutsideRange => 9,
            Denial::NoReceiver => 10,
            Denial::MapRefuses => 11,
            Denial::NotDominated => 12,
            Denial::NoMap => 13,
            Denial::AlreadyLabelled { .. } => 14,
            Denial::Inexpressible => 15,
            Denial::NoRoom => 16,
            Denial::TooLong => 17,
            Denial::Expired => 18,
            Denial::WrongVersion => 19,
            Denial::NoPair => 20,
            Denial::NotCrossable { .. } => 21,
            Denial::NotIp => 22,
            Denial::BelowRange => 23,
        }
    }

    /// The name under which it is reported, that of its variant.
    pub fn name(&self) -> &'static str
        ensures { result.now ≡ name_of self.now }
    {
        match self {
            Denial::BadHeader { .. } => "BadHeader",
            Denial::BadOption { .. } => "BadOption",
            Denial::Unlabelled => "Unlabelled",
            Denial::NoStatic => "NoStatic",
            Denial::UnknownDoi { .. } => "UnknownDoi",
            Denial::TagNotAllowed { .. } => "TagNotAllowed",
            Denial::LevelUnmapped => "LevelUnmapped",
            Denial::CategoryUnmapped { .. } => "CategoryUnmapped",
            Denial::OutsideRange => "OutsideRange",
            Denial::NoReceiver => "NoReceiver",
            Denial::MapRefuses => "MapRefuses",
            Denial::NotDominated => "NotDominated",
            Denial::NoMap => "NoMap",
            Denial::AlreadyLabelled { .. } => "AlreadyLabelled",
            Denial::Inexpressible => "Inexpressible",
            Denial::NoRoom => "NoRoom",
            Denial::TooLong => "TooLong",
            Denial::Expired => "Expired",
            Denial::WrongVersion => "WrongVersion",
            Denial::NoPair => "NoPair",
            Denial::NotCrossable { .. } => "NotCrossable",
            Denial::NotIp => "NotIp",
            Denial::BelowRange => "BelowRange",
        }
    }
}

/// The name under which a cause is reported, that of its variant.
pub fn cause_name(cause: Cause) -> &'static str
    ensures { result.now ≡ cause_name cause }
{
    match cause {
        Cause::Protocol => "Protocol",
        Cause::Fragment => "Fragment",
        Cause::Options => "Options",
        Cause::Segment => "Segment",
        Cause::NoChecksum => "NoChecksum",
    }
}
