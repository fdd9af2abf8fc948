//! The lines of the table.

ghost use Rattle.std.specs.Prelude.{◌≡◌};
ghost use Rattle.script_lines.specs.Form.{with_translations, line_rows};

/// A line of the table.
#[derive(Clone, Copy, Debug, PartialEq, Eq)]
pub enum Row {
    CipsoAddPass,
    CipsoAddTrans,
    CalipsoAddPass,
    CipsoDel,
    CalipsoDel,
    CipsoList,
    CalipsoList,
    MapAdd,
    MapDel,
    MapList,
    AcceptOn,
    AcceptOff,
    UnlblAdd,
    UnlblDel,
    UnlblList,
    ReceiverAdd,
    ReceiverDel,
    RangeAdd,
    RangeDel,
    PairAdd,
    PairDel,
    MgmtVersion,
    MgmtProtocols,
    CalipsoAddTrans,
    /// The line that says what a node's numbers mean. It is no command.
    Reading,
}

/// The row of reading lines, and those of commands.
const LINE_ROWS: [Row; 25] = [
    Row::Reading,
    Row::CipsoAddPass,
    Row::CipsoAddTrans,
    Row::CalipsoAddPass,
    Row::CipsoDel,
    Row::CalipsoDel,
    Row::CipsoList,
    Row::CalipsoList,
    Row::MapAdd,
    Row::MapDel,
    Row::MapList,
    Row::AcceptOn,
    Row::AcceptOff,
    Row::UnlblAdd,
    Row::UnlblDel,
    Row::UnlblList,
    Row::ReceiverAdd,
    Row::ReceiverDel,
    Row::RangeAdd,
    Row::RangeDel,
    Row::PairAdd,
    Row::PairDel,
    Row::MgmtVersion,
    Row::MgmtProtocols,
    Row::CalipsoAddTrans,
];

/// The rows that a line may be of: behind `netlabelctl` those of commands, else that of readings too.
pub(crate) fn line_rows(led: bool) -> &'static [Row]
    ensures { result.now ≡ line_rows led with_translations }
{
    if led { &LINE_ROWS[1..] } else { &LINE_ROWS }
}
