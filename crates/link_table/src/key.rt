//! What a table's rule is stated with.

use link_core::Cut;
use link_node::Node;
use std::snapshot::Snapshot;

/// The cut that a table was made from, as clauses see it, and the least limit of its nodes.
#[derive(Drop)]
pub struct Key<N: Node> {
    pub cut: Snapshot<Cut<N>>,
    pub limit: u64,
}
