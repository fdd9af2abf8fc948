//! Worked lines and replies; reports in pieces, failing writes, and versions kept.

mod lines;
mod replies;
mod reports;
