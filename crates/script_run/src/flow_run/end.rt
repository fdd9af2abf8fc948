//! Where a flow stands in its script, and how it ends.

use captures::FileFault;
use domain_map::Name;
use label_commands::FlowLine;
use shared_tables::SharedSteps;

/// Where a flow stands in its script.
#[derive(Clone, Copy)]
pub struct FlowPlace<'a> {
    /// The flow's line.
    pub flow: &'a FlowLine,
    /// The flow's number, counted from 1.
    pub number: u32,
    /// How many packets may still be read.
    pub most: u64,
    /// How many steps are made beside the flow, those above it counted too.
    pub upto: u32,
    /// How many workers walk packets.
    pub workers: usize,
    /// The names of all nodes.
    pub names: &'a [Name],
    /// All steps of the script.
    pub steps: &'a SharedSteps,
}

/// Why a flow was stopped.
#[derive(Clone, Copy, Debug, PartialEq, Eq)]
pub enum FlowStop {
    /// A read of the input has failed.
    Read,
    /// The making of the output has failed.
    Create,
    /// An append to the output has failed.
    Append,
    /// A write to the stream out has failed.
    Print,
    OutOfMemory,
}

/// How a flow ends.
#[derive(Clone, Copy, Debug, PartialEq, Eq)]
pub enum FlowEnd {
    /// All its packets were walked, and the next flow comes.
    GoesOn,
    /// Its capture has a fault behind its last packet.
    Broken(FileFault),
    /// Its capture has more packets than may be read.
    TooMany,
    /// It was stopped.
    Stopped(FlowStop),
}
