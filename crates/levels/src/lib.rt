// Our own tree over a table, sixteen in a row: what it is. There are no functions here.
#![tactic(auto)]

// The level and the run of a node.
#[derive(Drop)]
pub struct Spot {
    pub level: u8,
    pub start: u16,
    pub count: u8,
}
