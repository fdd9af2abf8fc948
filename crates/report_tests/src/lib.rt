//! Tests of a report: its lines, replies and end, and a report that is read back.
#![tactic(auto)]

#[cfg(test)]
mod of_call_report;
#[cfg(test)]
mod of_report_file;
#[cfg(test)]
mod of_report_lines;
