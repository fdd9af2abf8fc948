//! Tests of packets on their way: published tables, walks, rounds, captures.
#![tactic(auto)]

#[cfg(test)]
mod checks;
#[cfg(test)]
mod of_label_flow;
#[cfg(test)]
mod of_made_capture;
#[cfg(test)]
mod of_made_run;
#[cfg(test)]
mod of_node_agreement;
#[cfg(test)]
mod of_packet_walk;
#[cfg(test)]
mod of_shared_tables;
