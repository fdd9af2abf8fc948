//! What is compared: two nodes, and their ends of one DOI.

use doi_table::DoiDef;
use label_commands::Reading;
use node_tables::Tables;

/// Two nodes with their readings.
#[derive(Drop)]
pub struct Nodes<'a> {
    pub left: &'a Tables,
    pub right: &'a Tables,
    pub left_reading: &'a Reading,
    pub right_reading: &'a Reading,
}

/// The definitions of one DOI at two nodes, with their readings.
#[derive(Drop)]
pub struct Ends<'a> {
    pub left: &'a DoiDef,
    pub right: &'a DoiDef,
    pub left_reading: &'a Reading,
    pub right_reading: &'a Reading,
}
