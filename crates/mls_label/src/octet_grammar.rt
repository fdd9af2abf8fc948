//! What a reader of octets is held to, whatever the format: a grammar is a relation between octet strings and
//! values, and a reader that refuses an input names the first octet that no member of the grammar has there.
//! The definitions stand in `specs/`; the types below are the place and the kind of a fault, the calls read one octet. Beside them stand what
//! formats and texts share: numbers as decimal text, and the want of memory.

mod decimal;
mod fault;
mod memory;
mod number;
mod octet;

pub use decimal::{push_decimal, read_decimal, write_decimal};
pub use fault::{WireFault, WireKind};
pub use memory::OutOfMemory;
pub use number::{nonzero_at, number_in, u16_at, u32_at};
pub use octet::{ended, moved, octet_at, unfit};
