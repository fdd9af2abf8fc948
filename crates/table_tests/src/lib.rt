//! Tests of what the commands of a node set up.
#![tactic(auto)]

#[cfg(test)]
mod checks;
#[cfg(test)]
mod of_address_text;
#[cfg(test)]
mod of_command_values;
#[cfg(test)]
mod of_doi_table;
#[cfg(test)]
mod of_domain_map;
#[cfg(test)]
mod of_node_readings;
#[cfg(test)]
mod of_node_tables;
