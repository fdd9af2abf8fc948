//! Tests of the options that carry labels, and of the packets that have them.
#![tactic(auto)]

#[cfg(test)]
mod checks;
#[cfg(test)]
mod of_calipso_option;
#[cfg(test)]
mod of_category_bitmap;
#[cfg(test)]
mod of_cipso_option;
#[cfg(test)]
mod of_cipso_tags;
#[cfg(test)]
mod of_packet_label;
#[cfg(test)]
mod of_ripso_option;
#[cfg(test)]
mod of_version_cross;
