//! Tests of scripts, flows, words and what commands answer.
#![tactic(auto)]

#[cfg(test)]
mod checks;
#[cfg(test)]
mod of_command_words;
#[cfg(test)]
mod of_flow_lines;
#[cfg(test)]
mod of_label_commands;
#[cfg(test)]
mod of_script_lines;
