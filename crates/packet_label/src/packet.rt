//! What was read.

ghost use Rattle.std.specs.Prelude.{◌≡◌};
ghost use Rattle.std.specs.Option.{option_map};
ghost use Rattle.packet_label.specs.Packet.{headers_of, version_of};
ghost use Rattle.packet_label.specs.Wire.{wire_place, wire_doi, label_said};

use ip_headers::{Packet4, Packet6, Version};
use mls_label::{Label, Tag};

/// A packet of either version, borrowed from its octets.
#[derive(Debug, Drop)]
pub enum Packet<'a> {
    V4(Packet4<'a>),
    V6(Packet6<'a>),
}

/// What a label option says, with its place: the octet of its type in the packet.
#[derive(Debug, Drop)]
pub enum Wire {
    /// A CIPSO option of IPv4 (FIPS 188; CIPSO draft 2.2).
    Cipso {
        at: usize,
        doi: u32,
        tag: Tag,
        label: Label,
    },
    /// A CALIPSO option of IPv6 (RFC 5570).
    Calipso {
        at: usize,
        doi: u32,
        label: Label,
    },
}

/// What a label option says beside its label, with its place: the octet of its type in the packet.
#[derive(Clone, Copy, Debug)]
pub enum Mark {
    /// A CIPSO option of IPv4 (FIPS 188; CIPSO draft 2.2).
    Cipso { at: usize, doi: u32, tag: Tag },
    /// A CALIPSO option of IPv6 (RFC 5570).
    Calipso { at: usize, doi: u32 },
}

/// A packet, and what its label option says beside its label; `None` where it has none.
#[derive(Debug, Drop)]
pub struct Marked<'a> {
    pub packet: Packet<'a>,
    pub mark: Option<Mark>,
}

/// A packet, and what its label option says; `None` where it has none.
#[derive(Debug, Drop)]
pub struct Carried<'a> {
    pub packet: Packet<'a>,
    pub wire: Option<Wire>,
}

impl<'a> Packet<'a> {
    /// The version of its variant.
    pub(crate) fn version(&self) -> Version
        ensures { result ≡ version_of self.now }
    {
        match self {
            Packet::V4(_) => Version::V4,
            Packet::V6(_) => Version::V6,
        }
    }

    /// The first label option with its octet in the packet.
    pub(crate) fn label_option(&self) -> Option<(usize, &'a [u8])>
        ensures { option_map (λ x. record { place = x.0; octets = x.1.now }) result ≡
            (headers_of self.now).label }
    {
        match self {
            Packet::V4(view) => view.label_option(),
            Packet::V6(view) => view.label_option(),
        }
    }
}

impl Wire {
    /// The octet of the option's type in the packet.
    pub fn at(&self) -> usize
        ensures { result ≡ wire_place self.now }
    {
        match self {
            Wire::Cipso { at, .. } => *at,
            Wire::Calipso { at, .. } => *at,
        }
    }

    /// The domain of interpretation.
    pub fn doi(&self) -> u32
        ensures { result ≡ wire_doi self.now }
    {
        match self {
            Wire::Cipso { doi, .. } => *doi,
            Wire::Calipso { doi, .. } => *doi,
        }
    }

    /// The label, in the numbers of the domain of interpretation.
    pub fn label(&self) -> &Label
        ensures { result.now ≡ label_said self.now }
    {
        match self {
            Wire::Cipso { label, .. } => label,
            Wire::Calipso { label, .. } => label,
        }
    }
}
