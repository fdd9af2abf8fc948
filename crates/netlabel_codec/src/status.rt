//! How calls end.

ghost use Rattle.std.specs.Prelude.{◌≡◌};
ghost use Rattle.netlabel_codec.specs.Status.{code_of};

/// How a call ends. A call that reads ends with one of the first four, a call that writes with none that says a fault.
#[derive(Clone, Copy, Debug, PartialEq, Eq)]
pub enum Status {
    /// What was asked for is there, whole.
    Done,
    /// A header of the packet is wrong.
    BadHeader,
    /// The label option is wrong, or a second one stands in the packet.
    BadOption,
    /// The caller's buffer has too little room, and is as it was.
    NoRoom,
    /// The runs are out of order or out of bounds.
    BadRuns,
    /// The domain of interpretation is 0.
    BadDoi,
    /// No tag has this type.
    BadTag,
    /// No option of this kind can express the label.
    Inexpressible,
}

impl Status {
    /// The number by which C knows it.
    pub(crate) fn code(self) -> u32
        ensures { result ≡ code_of self }
    {
        match self {
            Status::Done => 0,
            Status::BadHeader => 1,
            Status::BadOption => 2,
            Status::NoRoom => 3,
            Status::BadRuns => 4,
            Status::BadDoi => 5,
            Status::BadTag => 6,
            Status::Inexpressible => 7,
        }
    }
}
