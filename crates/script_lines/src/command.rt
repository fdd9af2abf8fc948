//! The commands of a node (netlabelctl(8)).

ghost use Rattle.std.specs.Prelude.{◌≡◌, IfOk};
ghost use Rattle.script_lines.specs.Command.{said_of};

use crate::command_values::{CategoryPairs, Doi, LevelPairs, MapProtocol, Tags};
use crate::made::command_of;
use crate::row::Row;
use crate::shown::Shown;
use domain_map::{Address, Name, Prefix};
use mls_label::OutOfMemory;
use mls_range::KeptRange;
use std::alloc::Global;

/// A command: its form's choices, and its parameters in the order in which they are written. `None` for a domain or an interface is
/// the default one, and else a parameter that is left out.
#[derive(Drop)]
pub enum Command {
    /// `cipsov4 add pass`
    CipsoAddPass {
        doi: Doi,
        tags: Tags,
    },
    /// `cipsov4 add trans`
    CipsoAddTrans {
        doi: Doi,
        tags: Tags,
        levels: LevelPairs,
        categories: Option<CategoryPairs>,
    },
    /// `calipso add pass`
    CalipsoAddPass {
        doi: Doi,
    },
    /// `calipso add trans`
    CalipsoAddTrans {
        doi: Doi,
        levels: LevelPairs,
        categories: Option<CategoryPairs>,
    },
    /// `cipsov4 del`
    CipsoDel {
        doi: Doi,
    },
    /// `calipso del`
    CalipsoDel {
        doi: Doi,
    },
    /// `cipsov4 list`
    CipsoList {
        doi: Option<Doi>,
    },
    /// `calipso list`
    CalipsoList {
        doi: Option<Doi>,
    },
    /// `map add`
    MapAdd {
        domain: Option<Name>,
        prefix: Option<Prefix>,
        protocol: MapProtocol,
    },
    /// `map del`
    MapDel {
        domain: Option<Name>,
        prefix: Option<Prefix>,
    },
    /// `map list`
    MapList,
    /// `unlbl accept on`
    AcceptOn,
    /// `unlbl accept off`
    AcceptOff,
    /// `unlbl add`
    UnlblAdd {
        interface: Option<Name>,
        prefix: Prefix,
        range: KeptRange,
    },
    /// `unlbl del`
    UnlblDel {
        interface: Option<Name>,
        prefix: Prefix,
    },
    /// `unlbl list`
    UnlblList,
    /// `receiver add`: the range goes from the low end to the level.
    ReceiverAdd {
        address: Address,
        domain: Name,
        range: KeptRange,
    },
    /// `receiver del`
    ReceiverDel {
        address: Address,
    },
    /// `range add`
    RangeAdd {
        interface: Option<Name>,
        range: KeptRange,
    },
    /// `range del`
    RangeDel {
        interface: Option<Name>,
    },
    /// `pair add`
    PairAdd {
        four: [u8; 4],
        six: [u8; 16],
    },
    /// `pair del`
    PairDel {
        four: [u8; 4],
    },
    /// `mgmt version`
    MgmtVersion,
    /// `mgmt protocols`
    MgmtProtocols,
}

/// A command to a node, which is told by its place among the script's nodes.
#[derive(Drop)]
pub struct Step {
    pub node: usize,
    pub command: Command,
}

impl Command {
    /// Its row of the table.
    pub fn row(&self) -> Row
        ensures { result ≡ (said_of self.now).row }
    {
        match self {
            Command::CipsoAddPass { .. } => Row::CipsoAddPass,
            Command::CipsoAddTrans { .. } => Row::CipsoAddTrans,
            Command::CalipsoAddPass { .. } => Row::CalipsoAddPass,
            Command::CalipsoAddTrans { .. } => Row::CalipsoAddTrans,
            Command::CipsoDel { .. } => Row::CipsoDel,
            Command::CalipsoDel { .. } => Row::CalipsoDel,
            Command::CipsoList { .. } => Row::CipsoList,
            Command::CalipsoList { .. } => Row::CalipsoList,
            Command::MapAdd { .. } => Row::MapAdd,
            Command::MapDel { .. } => Row::MapDel,
            Command::MapList => Row::MapList,
            Command::AcceptOn => Row::AcceptOn,
            Command::AcceptOff => Row::AcceptOff,
            Command::UnlblAdd { .. } => Row::UnlblAdd,
            Command::UnlblDel { .. } => Row::UnlblDel,
            Command::UnlblList => Row::UnlblList,
            Command::ReceiverAdd { .. } => Row::ReceiverAdd,
            Command::ReceiverDel { .. } => Row::ReceiverDel,
            Command::RangeAdd { .. } => Row::RangeAdd,
            Command::RangeDel { .. } => Row::RangeDel,
            Command::PairAdd { .. } => Row::PairAdd,
            Command::PairDel { .. } => Row::PairDel,
            Command::MgmtVersion => Row::MgmtVersion,
            Command::MgmtProtocols => Row::MgmtProtocols,
        }
    }

    /// A copy.
    pub fn copy(&self, alloc: Global) -> Result<Command, OutOfMemory>
        ensures { IfOk result (λ copy. copy ≡ self.now) }
    {
        let fields = Shown::of(self).copied(alloc)?;
        match command_of(self.row(), fields) {
            Some(command) => Ok(command),
            None => unreachable!(),
        }
    }
}

impl Step {
    /// A copy.
    pub fn copy(&self, alloc: Global) -> Result<Step, OutOfMemory>
        ensures { IfOk result (λ copy. copy ≡ self.now) }
    {
        let command = self.command.copy(alloc)?;
        Ok(Step {
            node: self.node,
            command,
        })
    }
}
