//! Tests of what a node does with a packet.
#![tactic(auto)]

#[cfg(test)]
mod checks;
#[cfg(test)]
mod of_label_gateway;
#[cfg(test)]
mod of_label_receive;
#[cfg(test)]
mod of_label_send;
#[cfg(test)]
mod of_ripso_border;
