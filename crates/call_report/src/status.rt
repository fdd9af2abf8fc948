//! The status that a call ends with.

ghost use Rattle.std.specs.Prelude.{◌≡◌};
ghost use Rattle.call_report.specs.Status.{status_number, write_status};

use net_io::IoFault;

/// How a call ends. The first of these events decides.
#[derive(Clone, Copy, Debug, PartialEq, Eq)]
pub enum Status {
    /// The command was carried out and its input read to the end.
    Done,
    /// The words are none of the forms.
    NoForm,
    /// The script isn't in its grammar.
    WrongScript,
    /// A read of an input, or the making of an output, failed.
    ReadFault,
    /// A write to the stream out, or an append to an output, failed.
    WriteFault,
    /// A capture isn't in its grammar.
    WrongCapture,
    OutOfMemory,
    /// A limit is passed.
    Limit,
}

impl Status {
    /// The number that the program ends with.
    pub fn number(self) -> u8
        ensures { result ≡ status_number self }
    {
        match self {
            Status::Done => 0,
            Status::NoForm => 1,
            Status::WrongScript => 2,
            Status::ReadFault => 3,
            Status::WriteFault => 4,
            Status::WrongCapture => 5,
            Status::OutOfMemory => 6,
            Status::Limit => 7,
        }
    }

    /// How a call ends where a write was refused.
    pub fn after_write(fault: IoFault) -> Status
        ensures { result ≡ write_status fault }
    {
        match fault {
            IoFault::Failed => Status::WriteFault,
            IoFault::OutOfMemory => Status::OutOfMemory,
        }
    }
}
