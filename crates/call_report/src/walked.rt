//! Lines of what became of packets, which are printed one after the other.

ghost use Rattle.std.specs.Prelude.{◌≡◌, ◌++◌, OnOk, OnErr};
ghost use Rattle.call_report.specs.Lines.Flow.{end_text, walked_line};
ghost use Rattle.call_report.specs.inside.Extends.{Extends};

use crate::beginning::Beginning;
use crate::ending::Ending;
use crate::flow::append_end;
use crate::whole::all_or_nothing;
use domain_map::Name;
use label_commands::Hop;
use label_flow::{End, Walked};
use mls_label::OutOfMemory;
use std::alloc::Global;

/// Writes the lines of packets, and keeps what a line shares with the next one: its beginning, whose number is counted up, and its
/// end, while the versions stay.
#[derive(Drop)]
pub struct WalkLines {
    beginning: Beginning,
    ending: Ending,
}

impl WalkLines {
    /// Before the first line.
    pub fn new(alloc: Global) -> WalkLines {
        WalkLines {
            beginning: Beginning::new(alloc),
            ending: Ending::new(alloc),
        }
    }

    /// Appends the line that tells what became of a packet of a flow, over these hops of the nodes of these names.
    /// After an error `line` is as it was.
    #[tactic(auto, unfolding(crate::specs::Lines::Flow::walked_line))]
    pub fn write(
        &mut self,
        flow: u64,
        number: u64,
        names: &[Name],
        hops: &[Hop],
        walked: &Walked,
        line: &mut Vec<u8>,
    ) -> Result<(), OutOfMemory>
        ensures ok { OnOk result
            (line.new.items ≡ line.old.items
            ++ walked_line flow number names.now hops.now walked.now) }
        ensures err { OnErr result (line.new.items ≡ line.old.items) }
    {
        self.beginning.turn_to(flow, number)?;
        self.ending.turn_to(walked.versions.as_slice())?;
        let (beginning, ending) = (self.beginning.text(), self.ending.text());
        let before = line.len();
        let written = append_between(beginning, names, hops, &walked.end, ending, line);
        all_or_nothing(written, before, line)
    }
}

/// Appends how a walk ended between a beginning and an end, or a part of it where memory runs out.
fn append_between(
    beginning: &[u8],
    names: &[Name],
    hops: &[Hop],
    end: &End,
    ending: &[u8],
    line: &mut Vec<u8>,
) -> Result<(), OutOfMemory>
    ensures ok { OnOk result
        (line.new.items ≡ line.old.items ++ beginning.now
        ++ end_text names.now hops.now end.now ++ ending.now) }
    ensures err { OnErr result (Extends line.old.items line.new.items) }
{
    line.extend_from_slice(beginning)?;
    append_end(names, hops, end, line)?;
    line.extend_from_slice(ending)?;
    Ok(())
}
