//! Replies to commands.

ghost use Rattle.std.specs.Prelude.{◌≡◌};
ghost use Rattle.node_tables.specs.Refusal.{refusal_name};

use crate::list_text::ListText;

/// What a command answers.
#[derive(Drop)]
pub enum Reply {
    /// The tables are changed.
    Done,
    /// The lines of a listing.
    Listed(ListText),
    /// Nothing is changed.
    Refused(Refusal),
}

/// Why a command is refused.
#[derive(Clone, Copy, Debug, PartialEq, Eq)]
pub enum Refusal {
    /// The protocol defines the DOI already.
    DoiExists,
    /// The protocol doesn't define the DOI.
    DoiUnknown,
    /// An entry of the map names the DOI.
    DoiInUse,
    /// Two pairs have an equal local or an equal remote number.
    NotOneToOne,
    /// There are more than 1,952 pairs of categories.
    TooManyPairs,
    /// The domain has a plain entry, or that address.
    MapExists,
    /// The domain has no entry, or not that address.
    MapUnknown,
    /// The domain has a plain entry and takes no address.
    MapPlain,
    /// The domain has addresses and takes no plain entry.
    MapHasAddresses,
    /// The interface has that prefix.
    StaticExists,
    /// The interface doesn't have that prefix.
    StaticUnknown,
    /// The address has a receiver.
    ReceiverExists,
    /// The address has no receiver.
    ReceiverUnknown,
    /// The interface has a range.
    RangeExists,
    /// The interface has no range.
    RangeUnknown,
    /// One of the addresses is in a pair.
    PairExists,
    /// The address is in no pair.
    PairUnknown,
    /// The table has as many entries as it takes.
    TableFull,
}

impl Refusal {
    /// The name under which it is reported, that of its variant.
    pub fn name(&self) -> &'static str
        ensures { result.now ≡ refusal_name self.now }
    {
        match self {
            Refusal::DoiExists => "DoiExists",
            Refusal::DoiUnknown => "DoiUnknown",
            Refusal::DoiInUse => "DoiInUse",
            Refusal::NotOneToOne => "NotOneToOne",
            Refusal::TooManyPairs => "TooManyPairs",
            Refusal::MapExists => "MapExists",
            Refusal::MapUnknown => "MapUnknown",
            Refusal::MapPlain => "MapPlain",
            Refusal::MapHasAddresses => "MapHasAddresses",
            Refusal::StaticExists => "StaticExists",
            Refusal::StaticUnknown => "StaticUnknown",
            Refusal::ReceiverExists => "ReceiverExists",
            Refusal::ReceiverUnknown => "ReceiverUnknown",
            Refusal::RangeExists => "RangeExists",
            Refusal::RangeUnknown => "RangeUnknown",
            Refusal::PairExists => "PairExists",
            Refusal::PairUnknown => "PairUnknown",
            Refusal::TableFull => "TableFull",
        }
    }
}
