//! What a command has of each parameter.

ghost use Rattle.std.specs.Prelude.{◌≡◌, option_copied, option_map};
ghost use Rattle.script_lines.specs.Command.{said_of};

use crate::command::Command;
use crate::command_values::{CategoryPairs, Doi, LevelPairs, MapProtocol, Tags};
use domain_map::{Address, Name, Prefix};
use mls_range::KeptRange;

impl Command {
    pub(crate) fn doi(&self) -> Option<Doi>
        ensures { result ≡ (said_of self.now).fields.doi }
    {
        match self {
            Command::CipsoAddPass { doi, .. }
            | Command::CipsoAddTrans { doi, .. }
            | Command::CalipsoAddPass { doi }
            | Command::CalipsoAddTrans { doi, .. }
            | Command::CipsoDel { doi }
            | Command::CalipsoDel { doi } => Some(*doi),
            Command::CipsoList { doi } | Command::CalipsoList { doi } => *doi,
            _ => None,
        }
    }

    pub(crate) fn tags(&self) -> Option<&Tags>
        ensures { option_copied result ≡ (said_of self.now).fields.tags }
    {
        match self {
            Command::CipsoAddPass { tags, .. } | Command::CipsoAddTrans { tags, .. } => Some(tags),
            _ => None,
        }
    }

    pub(crate) fn levels(&self) -> Option<&LevelPairs>
        ensures { option_copied result ≡ (said_of self.now).fields.levels }
    {
        match self {
            Command::CipsoAddTrans { levels, .. } => Some(levels),
            Command::CalipsoAddTrans { levels, .. } => Some(levels),
            _ => None,
        }
    }

    pub(crate) fn categories(&self) -> Option<&CategoryPairs>
        ensures { option_copied result ≡ (said_of self.now).fields.categories }
    {
        match self {
            Command::CipsoAddTrans { categories, .. }
            | Command::CalipsoAddTrans { categories, .. } => categories.as_ref(),
            _ => None,
        }
    }

    pub(crate) fn domain(&self) -> Option<Option<&Name>>
        ensures { option_map option_copied result ≡ (said_of self.now).fields.domain }
    {
        match self {
            Command::MapAdd { domain, .. } => Some(domain.as_ref()),
            Command::MapDel { domain, .. } => Some(domain.as_ref()),
            _ => None,
        }
    }

    pub(crate) fn interface(&self) -> Option<Option<&Name>>
        ensures { option_map option_copied result ≡ (said_of self.now).fields.interface }
    {
        match self {
            Command::UnlblAdd { interface, .. }
            | Command::UnlblDel { interface, .. }
            | Command::RangeAdd { interface, .. }
            | Command::RangeDel { interface } => Some(interface.as_ref()),
            _ => None,
        }
    }

    pub(crate) fn prefix(&self) -> Option<Prefix>
        ensures { result ≡ (said_of self.now).fields.prefix }
    {
        match self {
            Command::MapAdd { prefix, .. } | Command::MapDel { prefix, .. } => *prefix,
            Command::UnlblAdd { prefix, .. } | Command::UnlblDel { prefix, .. } => Some(*prefix),
            _ => None,
        }
    }

    pub(crate) fn protocol(&self) -> Option<MapProtocol>
        ensures { result ≡ (said_of self.now).fields.protocol }
    {
        match self {
            Command::MapAdd { protocol, .. } => Some(*protocol),
            _ => None,
        }
    }

    pub(crate) fn label(&self) -> Option<&KeptRange>
        ensures { option_copied result ≡ (said_of self.now).fields.label }
    {
        match self {
            Command::UnlblAdd { range, .. } => Some(range),
            _ => None,
        }
    }

    pub(crate) fn address(&self) -> Option<Address>
        ensures { result ≡ (said_of self.now).fields.address }
    {
        match self {
            Command::ReceiverAdd { address, .. } => Some(*address),
            Command::ReceiverDel { address } => Some(*address),
            _ => None,
        }
    }

    pub(crate) fn home(&self) -> Option<&Name>
        ensures { option_copied result ≡ (said_of self.now).fields.home }
    {
        match self {
            Command::ReceiverAdd { domain, .. } => Some(domain),
            _ => None,
        }
    }

    pub(crate) fn level(&self) -> Option<&KeptRange>
        ensures { option_copied result ≡ (said_of self.now).fields.level }
    {
        match self {
            Command::ReceiverAdd { range, .. } => Some(range),
            _ => None,
        }
    }

    pub(crate) fn range(&self) -> Option<&KeptRange>
        ensures { option_copied result ≡ (said_of self.now).fields.range }
    {
        match self {
            Command::RangeAdd { range, .. } => Some(range),
            _ => None,
        }
    }

    pub(crate) fn four(&self) -> Option<[u8; 4]>
        ensures { result ≡ (said_of self.now).fields.four }
    {
        match self {
            Command::PairAdd { four, .. } | Command::PairDel { four } => Some(*four),
            _ => None,
        }
    }

    pub(crate) fn six(&self) -> Option<[u8; 16]>
        ensures { result ≡ (said_of self.now).fields.six }
    {
        match self {
            Command::PairAdd { six, .. } => Some(*six),
            _ => None,
        }
    }
}
