//! Tests of runs: one flow, and all flows of a script.
#![tactic(auto)]

#[cfg(test)]
mod of_flow_run;
#[cfg(test)]
mod of_script_run;
#[cfg(test)]
mod of_static_law;
