//! A report on its way to the stream out: it is gathered, and handed on in pieces of some kilobytes.

ghost use Rattle.std.specs.Prelude.{◌≡◌, [], OnOk};
ghost use Rattle.call_report.specs.Printing.{HandsOn, Printed};

use crate::status::Status;
use net_io::{IoFault, Sink, write_all_to};
use std::alloc::Global;

/// How many octets are gathered before they are handed on.
const PIECE: usize = 16384;

/// The end of a report that waits to be handed on.
#[derive(Debug, Drop)]
pub struct Report {
    /// What waits: writers of lines append to it.
    pub waiting: Vec<u8>,
}

impl Report {
    /// An empty report. It takes no memory.
    pub fn new(alloc: Global) -> Report
        ensures { result.waiting.items ≡ [] }
    {
        Report {
            waiting: Vec::new(alloc),
        }
    }

    /// Hands all that waits on.
    pub fn flush<S: Sink>(&mut self, out: &mut S) -> Result<(), IoFault>
        ensures hands { HandsOn [] self.old.waiting.items self.new.waiting.items result
            (S.state out.old) (S.state out.new) }
        ensures empty { OnOk result (self.new.waiting.items ≡ []) }
    {
        write_all_to(out, &self.waiting)?;
        self.waiting.clear();
        Ok(())
    }

    /// Hands what waits on where it has grown to a piece.
    pub fn pass<S: Sink>(&mut self, out: &mut S) -> Result<(), IoFault>
        ensures { HandsOn [] self.old.waiting.items self.new.waiting.items result
            (S.state out.old) (S.state out.new) }
    {
        if self.waiting.len() < PIECE {
            return Ok(());
        }
        self.flush(out)
    }

    /// Prints what waits, the end of a report's body, and then the line of the event that ends the call, none where it has
    /// none. It tells how a call ends that is to end so: a write that fails in the body comes before the event, one that
    /// fails in the event's line behind it.
    pub fn end<S: Sink>(self, out: &mut S, last: &[u8], status: Status) -> Status
        ensures { Printed self.waiting.items last.now status result
            (S.state out.old) (S.state out.new) }
    {
        let mut report = self;
        match report.flush(out) {
            Ok(()) => print_last(out, last, status),
            Err(fault) => Status::after_write(fault),
        }
    }
}

/// Prints the line of an event.
fn print_last<S: Sink>(out: &mut S, last: &[u8], status: Status) -> Status
    ensures { Printed [] last.now status result (S.state out.old) (S.state out.new) }
{
    match write_all_to(out, last) {
        Ok(()) => status,
        Err(IoFault::Failed) => status,
        Err(IoFault::OutOfMemory) => Status::OutOfMemory,
    }
}
