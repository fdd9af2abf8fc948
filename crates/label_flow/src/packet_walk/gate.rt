//! Gates.

/// Who is called before each look of a worker, and before and after each step of the publisher. It has no say on results: a test
/// holds one side until the other has come so far.
pub trait Gate {
    /// Directly before a worker, counted from 0, looks for a hop of a packet, both counted from 1.
    fn before_look(&self, worker: u32, packet: u64, hop: u32);

    /// Directly before a step, counted from 1.
    fn before_step(&self, version: u32);

    /// Directly after this step was published.
    fn after_step(&self, version: u32);
}

/// A gate that does nothing.
pub struct OpenGate;

impl Gate for OpenGate {
    fn before_look(&self, _worker: u32, _packet: u64, _hop: u32) {}

    fn before_step(&self, _version: u32) {}

    fn after_step(&self, _version: u32) {}
}
