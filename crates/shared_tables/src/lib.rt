//! The tables of all nodes as they are published: one publisher makes the steps of a plan, and viewers look at one version at a time,
//! with no lock and no waiting. A publisher, a viewer and a note are seen as the board that they are of, its plan, and a version.
//! Stands on `left_right`: each step is applied in place to two copies, of which viewers look at one.
#![tactic(auto)]

mod board;
pub mod laws;
mod note;
mod plan;
mod publisher;
mod rule;
mod shared_steps;
mod state;
mod viewer;

pub use board::Board;
pub use note::Note;
pub use plan::Plan;
pub use publisher::Publisher;
pub use shared_steps::SharedSteps;
pub use viewer::Viewer;
