//! A packet of one version of IP written as the same packet of the other, for segments of TCP and UDP in packets that are no
//! fragments and have no option but their label option (a narrower RFC 7915, sections 4 and 5). The checksum of the segment
//! is updated and not made anew (RFC 1624), so that a damaged segment stays damaged.
#![tactic(auto)]

mod cause;
mod checksum;
mod cross;
mod fault;
pub mod laws;
mod segment;

pub use cause::{crossable4, crossable6};
pub use cross::{cross4to6, cross6to4};
pub use fault::CrossFault;
pub use ip_headers::Cause;
