//! What readers of files in pieces share: a window of a file, which one read fills, the octets that go past it, and
//! numbers in either order of octets. Over the named files of `net_io`.

pub mod laws;
mod order;
mod reading;
mod window;

pub use order::OctetOrder;
pub use reading::take_behind;
pub use window::{WINDOW, Window};
