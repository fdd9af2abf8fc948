//! The command that a line says.

ghost use Rattle.std.specs.Prelude.{◌≡◌};
ghost use Rattle.script_lines.specs.declared.row.Row.TheVariants as In;
ghost use Rattle.script_lines.specs.Command.{command_of};

use crate::command::Command;
use crate::fields::Fields;
use crate::row::Row;

/// The command that a row's parameters make, or `None` where one that must be there isn't. A reading line is no command.
pub fn command_of(row: Row, mut fields: Fields) -> Option<Command>
    ensures { result ≡ command_of row fields }
{
    command_from(row, &mut fields)
}

/// That command, which takes what it has from lent fields: so they are one value still, and dropped once.
fn command_from(row: Row, fields: &mut Fields) -> Option<Command>
    ensures { result ≡ command_of row fields.old }
{
    match row {
        Row::CipsoAddPass => cipso_add_pass(fields),
        Row::CipsoAddTrans => cipso_add_trans(fields),
        Row::CalipsoAddPass => Some(Command::CalipsoAddPass { doi: fields.doi? }),
        Row::CalipsoAddTrans => calipso_add_trans(fields),
        Row::CipsoDel => Some(Command::CipsoDel { doi: fields.doi? }),
        Row::CalipsoDel => Some(Command::CalipsoDel { doi: fields.doi? }),
        Row::CipsoList => Some(Command::CipsoList { doi: fields.doi }),
        Row::CalipsoList => Some(Command::CalipsoList { doi: fields.doi }),
        Row::MapAdd => map_add(fields),
        Row::MapDel => map_del(fields),
        Row::MapList => Some(Command::MapList),
        Row::AcceptOn => Some(Command::AcceptOn),
        Row::AcceptOff => Some(Command::AcceptOff),
        Row::UnlblAdd => unlbl_add(fields),
        Row::UnlblDel => unlbl_del(fields),
        Row::UnlblList => Some(Command::UnlblList),
        Row::ReceiverAdd => receiver_add(fields),
        Row::ReceiverDel => receiver_del(fields),
        Row::RangeAdd => range_add(fields),
        Row::RangeDel => range_del(fields),
        Row::PairAdd => pair_add(fields),
        Row::PairDel => Some(Command::PairDel { four: fields.four? }),
        Row::MgmtVersion => Some(Command::MgmtVersion),
        Row::MgmtProtocols => Some(Command::MgmtProtocols),
        Row::Reading => None,
    }
}

fn cipso_add_pass(fields: &mut Fields) -> Option<Command>
    ensures { result ≡ command_of In.CipsoAddPass fields.old }
{
    Some(Command::CipsoAddPass {
        doi: fields.doi?,
        tags: fields.tags.take()?,
    })
}

fn cipso_add_trans(fields: &mut Fields) -> Option<Command>
    ensures { result ≡ command_of In.CipsoAddTrans fields.old }
{
    Some(Command::CipsoAddTrans {
        doi: fields.doi?,
        tags: fields.tags.take()?,
        levels: fields.levels.take()?,
        categories: fields.categories.take(),
    })
}

fn calipso_add_trans(fields: &mut Fields) -> Option<Command>
    ensures { result ≡ command_of In.CalipsoAddTrans fields.old }
{
    Some(Command::CalipsoAddTrans {
        doi: fields.doi?,
        levels: fields.levels.take()?,
        categories: fields.categories.take(),
    })
}

fn map_add(fields: &mut Fields) -> Option<Command>
    ensures { result ≡ command_of In.MapAdd fields.old }
{
    Some(Command::MapAdd {
        protocol: fields.protocol?,
        prefix: fields.prefix,
        domain: fields.domain.take()?,
    })
}

fn map_del(fields: &mut Fields) -> Option<Command>
    ensures { result ≡ command_of In.MapDel fields.old }
{
    Some(Command::MapDel {
        prefix: fields.prefix,
        domain: fields.domain.take()?,
    })
}

fn unlbl_add(fields: &mut Fields) -> Option<Command>
    ensures { result ≡ command_of In.UnlblAdd fields.old }
{
    Some(Command::UnlblAdd {
        prefix: fields.prefix?,
        interface: fields.interface.take()?,
        range: fields.label.take()?,
    })
}

fn unlbl_del(fields: &mut Fields) -> Option<Command>
    ensures { result ≡ command_of In.UnlblDel fields.old }
{
    Some(Command::UnlblDel {
        prefix: fields.prefix?,
        interface: fields.interface.take()?,
    })
}

fn receiver_add(fields: &mut Fields) -> Option<Command>
    ensures { result ≡ command_of In.ReceiverAdd fields.old }
{
    Some(Command::ReceiverAdd {
        address: fields.address?,
        domain: fields.home.take()?,
        range: fields.level.take()?,
    })
}

fn receiver_del(fields: &Fields) -> Option<Command>
    ensures { result ≡ command_of In.ReceiverDel fields.now }
{
    Some(Command::ReceiverDel {
        address: fields.address?,
    })
}

fn range_add(fields: &mut Fields) -> Option<Command>
    ensures { result ≡ command_of In.RangeAdd fields.old }
{
    Some(Command::RangeAdd {
        interface: fields.interface.take()?,
        range: fields.range.take()?,
    })
}

fn range_del(fields: &mut Fields) -> Option<Command>
    ensures { result ≡ command_of In.RangeDel fields.old }
{
    Some(Command::RangeDel {
        interface: fields.interface.take()?,
    })
}

fn pair_add(fields: &Fields) -> Option<Command>
    ensures { result ≡ command_of In.PairAdd fields.now }
{
    Some(Command::PairAdd {
        four: fields.four?,
        six: fields.six?,
    })
}
