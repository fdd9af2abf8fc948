//! Tests of the ground: octets and grammars, labels, their texts, the outside, headers.
#![tactic(auto)]

#[cfg(test)]
mod checks;
#[cfg(test)]
mod of_ip_headers;
#[cfg(test)]
mod of_mls_label;
#[cfg(test)]
mod of_mls_range;
#[cfg(test)]
mod of_net_io;
#[cfg(test)]
mod of_octet_grammar;
