// What stands round each exchange of a node.

/// Is called round each exchange by which a node of `run_nodes` sends an edit. Nodes and the edits that each sends count from 1.
pub trait Gate {
    /// Is called right before a node sends an edit that it made.
    fn before(&self, node: u64, call: u64);

    /// Is called right after that exchange, however it ended.
    fn after(&self, node: u64, call: u64);
}

/// A gate that does nothing.
#[derive(Clone, Copy, Debug)]
pub struct NoGate;

impl Gate for NoGate {
    fn before(&self, _node: u64, _call: u64) {}

    fn after(&self, _node: u64, _call: u64) {}
}
