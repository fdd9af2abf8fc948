//! Tests of captures: their window, pcap and pcapng.
#![tactic(auto)]

#[cfg(test)]
mod checks;
#[cfg(test)]
mod of_captures;
#[cfg(test)]
mod of_file_window;
#[cfg(test)]
mod of_pcap_frames;
#[cfg(test)]
mod of_pcapng_frames;
